// What is wrong with a state that is not sound: its first fault. A heap and a set of timers name theirs by this one type.
ghost use Rattle.refusals.specs.Faults.{Kinds, Stands};

// The kind of a fault, and where it is. The kinds are tried in this order.
#[derive(Clone, Copy)]
pub enum Fault {
    // of a heap: too many entries or slots, or not as many entries as full slots
    Count,
    // the position of an entry that its slot does not name
    Position(u64),
    // the position of an entry that is smaller than its parent
    Order(u64),
    // the step along the free chain, the free head being step 0
    FreeChain(u64),
    // the step along the waiting list, its head being step 0
    List(u64),
    // the lowest place at which anything else is wrong; that of a heap entry is the place that it holds, however large
    Place(u64),
}

// The number of a fault's kind, for whoever hands faults on: 1 count, 2 position, 3 order, 4 free chain, 5 list, 6 place.
pub fn kind(f: Fault) -> u8
    ensures { Kinds f result }
{
    match f {
        Fault::Count => 1,
        Fault::Position(_) => 2,
        Fault::Order(_) => 3,
        Fault::FreeChain(_) => 4,
        Fault::List(_) => 5,
        Fault::Place(_) => 6,
    }
}

// Where a fault is: the position, the step or the place; 0 for a count.
pub fn at(f: Fault) -> u64
    ensures { Stands f result }
{
    match f {
        Fault::Count => 0,
        Fault::Position(i) => i,
        Fault::Order(i) => i,
        Fault::FreeChain(k) => k,
        Fault::List(k) => k,
        Fault::Place(p) => p,
    }
}
