// Block files.
pub use blockfile::file::FileReader;
