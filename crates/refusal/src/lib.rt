// Why a call of this repository was refused: one enum for every public call, and the number by which operators know
// each case.
#![tactic(auto)]

ghost use Rattle.std.specs.Prelude.{◌≡◌, ◌≤◌};
ghost use Rattle.refusal.specs.Told.{kind_number, refusal_number, told};

// A refusal in the words of docs/REFUSALS.md, in the order of its numbers, with what comes with it.
#[derive(Clone, Copy, PartialEq, Eq, Debug)]
pub enum Refusal {
    Bounds,
    HeadTaken,
    Past,
    OffDisk,
    PoolShort,
    Crowded(Span),
    WrongSize,
    LastSlot,
    NotThere,
    LeasesOut,
    NotHeld,
    HeadEmpty,
    // Read failed or Beyond, as the fault's kind says.
    Faulted(Fault),
    BadImage,
    BadEntry,
    BadCue(Place),
    Full,
    ShortOutput,
}

// The slots from `l` up to, not including, `h`.
#[derive(Clone, Copy, PartialEq, Eq, Debug)]
pub struct Span {
    pub l: u32,
    pub h: u32,
}

// Why a disk did not read, the tag of the disk where that arose, and the block as called for there. Layers pass a
// fault on unaltered.
#[derive(Clone, Copy, PartialEq, Eq, Debug)]
pub struct Fault {
    pub kind: FaultKind,
    pub tag: u8,
    pub block: usize,
}

#[derive(Clone, Copy, PartialEq, Eq, Debug)]
pub enum FaultKind {
    ReadFailed,
    Beyond,
}

// Where a cue list is wrong: the line, counted from 1, and the byte of the line, from 0, at which the wrong word begins.
#[derive(Clone, Copy, PartialEq, Eq, Debug)]
pub struct Place {
    pub line: usize,
    pub byte: usize,
}

impl Refusal {
    // The number in the table. With the values that come with it, it tells the refusal whole.
    pub fn number(&self) -> u8
        ensures value { result ≡ refusal_number self.now }
        ensures within { (1 ≤ result) × (result ≤ 19) }
        ensures apart { (a b : Refusal) → told a ≡ told b → a ≡ b }
    {
        match self {
            Refusal::Bounds => 1,
            Refusal::HeadTaken => 2,
            Refusal::Past => 3,
            Refusal::OffDisk => 4,
            Refusal::PoolShort => 5,
            Refusal::Crowded(_) => 6,
            Refusal::WrongSize => 7,
            Refusal::LastSlot => 8,
            Refusal::NotThere => 9,
            Refusal::LeasesOut => 10,
            Refusal::NotHeld => 11,
            Refusal::HeadEmpty => 12,
            Refusal::Faulted(fault) => fault.number(),
            Refusal::BadImage => 15,
            Refusal::BadEntry => 16,
            Refusal::BadCue(_) => 17,
            Refusal::Full => 18,
            Refusal::ShortOutput => 19,
        }
    }
}

impl Fault {
    // 13 where the read failed, 14 where the block lies beyond the disk.
    pub fn number(&self) -> u8
        ensures { result ≡ kind_number self.now.kind }
    {
        match self.kind {
            FaultKind::ReadFailed => 13,
            FaultKind::Beyond => 14,
        }
    }
}
