// Compact sizes into short buffers, blocks and files above the limit, and peeks into block files.
use crate::block::{coinbase_block, id, to_seven, write_record};
use crate::calls::refused;
use crate::tests::{CELL, check};
use blockform::fault::short_buffer;
use blockform::file::FileReader;
use coinsview::table::FlatTable;
use coinsview::view::CoinsView;
use compact::{ShortBuffer, write_size};
use ledger::Ledger;
use ledger::terms::Parameters;
use refusal::{Layer, Reason, Refusal};
use std::alloc::{AllocError, Global};
use std::test::Fail;
use views::condition::Badge;

// Numbers at the edges of each form, with the bytes of the form.
const SIZES: [(u64, usize); 7] = [
    (252, 1),
    (253, 3),
    (65_535, 3),
    (65_536, 5),
    (4_294_967_295, 5),
    (4_294_967_296, 9),
    (18_446_744_073_709_551_615, 9),
];

// Whether only the first `filled` bytes may differ from 170.
fn untouched(buffer: &[u8], filled: usize) -> bool {
    buffer.iter().skip(filled).all(|byte| *byte == 170)
}

// Writes into a buffer of each size up to 12 bytes.
fn writes_or_refuses(heap: Global, n: u64, needed: usize) -> Result<(), Fail> {
    for room in 0..13usize {
        let mut buffer = vec![in heap; 170u8; room]?;
        let answer = write_size(buffer.as_mut_slice(), n);
        let (due, filled) = if room < needed {
            (Err(ShortBuffer), 0)
        } else {
            (Ok(needed), needed)
        };
        check(
            answer == due && untouched(buffer.as_slice(), filled),
            format_args!("size {n} in {room} bytes"),
        )?;
    }
    Ok(())
}

#[test]
fn short_buffers(rt: HostRuntime) -> Result<(), Fail> {
    for (n, needed) in &SIZES {
        writes_or_refuses(rt.alloc(), *n, *needed)?;
    }
    check_said(ShortBuffer.into(), 9, Layer::Form, 0)?;
    check_said(short_buffer(), 9, Layer::Form, 0)
}

// The numbers of the reasons that the lists of calls and of peeks name.
const NUMBERS: [(Reason, u8); 15] = [
    (Reason::Cut, 1),
    (Reason::FileCut, 6),
    (Reason::Ended, 8),
    (Reason::Parent, 10),
    (Reason::LogFull, 12),
    (Reason::Claim, 14),
    (Reason::Missing, 30),
    (Reason::Shut, 32),
    (Reason::Exists, 33),
    (Reason::Full, 34),
    (Reason::Nothing, 40),
    (Reason::Parameter, 41),
    (Reason::NotEmpty, 42),
    (Reason::Started, 43),
    (Reason::NotStarted, 44),
];

#[test]
fn numbers(rt: HostRuntime) {
    assert!(rt;
        NUMBERS
            .iter()
            .all(|(reason, number)| reason.number() == *number)
    );
}

fn check_said(refusal: Refusal, number: u8, layer: Layer, first: u64) -> Result<(), Fail> {
    check(refusal.reason.number() == number, "number")?;
    check(refusal.reason.layer() == layer, "layer")?;
    check(refusal.first == first && refusal.second == 0, "place")
}

// Connects that many zero bytes, of which 65 are a block.
fn connect_zeros(heap: Global, count: usize) -> Result<Refusal, Fail> {
    let mut cells = [CELL; 2];
    let mut ledger = Ledger::new(FlatTable::new(&mut cells), Badge);
    let parameters = Parameters {
        halving: 1,
        maturity: 1,
        last: 1,
    };
    check(ledger.start(parameters, &id(0)).is_ok(), "start")?;
    let zeros = vec![in heap; 0u8; count]?;
    match ledger.connect(zeros.as_slice()) {
        Ok(_) => Err(Fail::new("connected")),
        Err(fault) => Ok(Refusal::from(fault)),
    }
}

#[test]
fn above_the_limit(rt: HostRuntime) -> Result<(), Fail> {
    let heap = rt.alloc();
    check_said(connect_zeros(heap, 65_537)?, 5, Layer::Form, 0)?;
    check_said(connect_zeros(heap, 65_536)?, 4, Layer::Form, 65)?;
    let zeros = vec![in heap; 0u8; 65_537]?;
    match FileReader::new(zeros.as_slice()) {
        Ok(_) => Err(Fail::new("read")),
        Err(fault) => check_said(fault.into(), 5, Layer::File, 0),
    }
}

// The last bytes of the next record's two identifiers.
type Peek = Result<(u8, u8), Refusal>;

fn peeked(reader: &mut FileReader<'_>) -> Peek {
    match reader.peek() {
        Ok((id, previous)) => Ok((id[31], previous[31])),
        Err(fault) => Err(fault.into()),
    }
}

// Peeks twice at each record, and moves past it.
fn peeks_agree(name: &str, file: &[u8], answers: &[Peek]) -> Result<(), Fail> {
    let mut reader = FileReader::new(file)?;
    for answer in answers {
        let place = reader.place();
        check(peeked(&mut reader) == *answer, name)?;
        check(peeked(&mut reader) == *answer, name)?;
        check(reader.place() == place, name)?;
        let _ = reader.next();
    }
    Ok(())
}

// Five records with blocks of 155, 64, 40, 10 and 0 bytes.
fn five_records(heap: Global) -> Result<Vec<u8>, AllocError> {
    let mut file = Vec::new(heap);
    write_record(
        &mut file,
        155,
        coinbase_block(heap, 1, 0, &[to_seven(5)])?.as_slice(),
    )?;
    write_record(&mut file, 64, &id(3))?;
    file.extend_from_slice(&id(4))?;
    write_record(&mut file, 40, &[5; 40])?;
    write_record(&mut file, 10, &[5; 10])?;
    write_record(&mut file, 0, &[])?;
    Ok(file)
}

// The five records, and twice the last answer.
fn five_then(last: Peek) -> [Peek; 7] {
    [
        Ok((1, 0)),
        Ok((3, 4)),
        refused(Reason::Cut, 32, 0),
        refused(Reason::Cut, 0, 0),
        refused(Reason::Cut, 0, 0),
        last,
        last,
    ]
}

#[test]
fn peeking(rt: HostRuntime) -> Result<(), Fail> {
    let heap = rt.alloc();
    let ended = refused(Reason::Ended, 0, 0);
    let cut = refused(Reason::FileCut, 289, 0);
    let mut file = five_records(heap)?;
    peeks_agree("whole", file.as_slice(), &five_then(ended))?;
    file.extend_from_slice(&[9, 0, 0])?;
    peeks_agree("cut in the length", file.as_slice(), &five_then(cut))?;
    file.extend_from_slice(&[0, 1, 2, 3])?;
    peeks_agree("cut in the block", file.as_slice(), &five_then(cut))?;
    peeks_agree("empty", &[], &[ended])
}
