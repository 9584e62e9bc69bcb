// Refusals, under the numbers that the rules paper gives them, and in their order, as the definitions chain them.
ghost use Rattle.std.specs.Prelude.{◌≡◌};
ghost use Rattle.octets.specs.Refusals.{number_of, refusal_in};

// Why a message or a call is refused.
#[derive(Clone, Copy, Debug, PartialEq, Eq)]
pub enum Refusal {
    // a reading below the clock, or above the greatest
    Late = 1,
    // no session of the label
    NotOpen = 2,
    // the message ends early
    TooShort = 3,
    // first nibble or version of the channel header
    Header = 4,
    // a channel type that is not the reader's own
    Channel = 5,
    // a reception rule of a BFD control packet
    ControlPacket = 6,
    // type or length of a MEP-ID
    MepId = 7,
    // version, type, refresh time or a TLV of a fault message
    FaultMessage = 8,
    // four other conditions stand
    NoPlace = 9,
    // a field out of its range
    OutOfRange = 10,
    // a label, discriminator or group that is taken
    Taken = 11,
    // a party that has opened all it may
    Full = 12,
    // a buffer that is too short
    NoRoom = 13,
    // the session is locked
    Locked = 14,
    // what is asked about does not stand
    NotStanding = 15,
    // an entry that runs past its holder's end
    PastHolder = 16,
    // an entry whose length its layout does not allow
    WrongLength = 17,
    // a needed entry that is missing or there twice
    NotOnce = 18,
    // a log that is none
    BadLog = 19,
    // an index that is not of the log
    BadIndex = 20,
    // a number that does not fit
    NoFit = 21,
    // the first capture is bad
    FirstCapture = 22,
    // the second capture is bad
    SecondCapture = 23,
    // no group takes it
    NoGroup = 24,
    // the TLVs of a DHC message
    DhcTlvs = 25,
    // the table is not in order
    Unsound = 26,
}

// Why a message is refused, and where it goes wrong.
#[derive(Clone, Copy, Debug, PartialEq, Eq)]
pub struct Misread {
    pub refusal: Refusal,
    pub place: usize,
}

impl From<Refusal> for u32 {
    ghost from_gives = { λ r n. n ≡ number_of r };

    fn from(r: Refusal) -> u32 {
        r as u32
    }
}

// The number of a refusal, 0 where there is none.
pub fn answer_number(r: Result<(), Refusal>) -> u32
    ensures { result ≡ refusal_in r }
{
    match r {
        Ok(()) => 0,
        Err(refusal) => u32::from(refusal),
    }
}
