// What the words of the contracts come to, as laws of the maps.
ghost use Rattle.coinsview.specs.Laws.{MapLaws};

// The order of outpoints is total; a map is known by its look-ups; a pair added or removed changes no other; next is least.
pub fn map_laws()
    ensures { MapLaws }
{}
