// What several crates share: why a call is refused, an answer as it is told, what is said of video, the copying of bytes, a flag as a number.
#![tactic(auto)]

ghost use Rattle.std.specs.Prelude.{◌≡◌, cond, ◌≤◌};
ghost use Rattle.std.proofs.lemmas.List.Edits.{sets};
ghost use Rattle.laws.specs.Refusals.{number_of, done_of};

// 0 and how many bytes were written, or the refusal's number and 0 (01, "What a caller is told").
#[derive(Clone, Copy)]
pub struct Done {
    pub number: u8,
    pub written: usize,
}

// What a frame shows and a container says of its video: "one of none, one field or two".
#[derive(Clone, Copy)]
pub enum Video {
    Absent,
    One(u8),
    Two(u8, u8),
}

// Why a call is refused, by document 01's and 02's numbers.
#[derive(Clone, Copy, Debug, PartialEq, Eq)]
pub enum Refusal {
    // A format, a rate, a rule, a pairing, a number of fingerprints or a mix type that is not listed; an empty session.
    NotListed = 1,
    // A line whose length is not 2 x width.
    LineLength = 2,
    // A line that is not 1 to Lines.
    NoSuchLine = 3,
    // A monitored line that is not the one expected.
    NotTheDueLine = 4,
    // The first line of a frame while one is ready.
    FrameWaits = 5,
    // No such fingerprint.
    NoSuchFingerprint = 7,
    // A block whose length is no multiple of one instant.
    NotWholeInstants = 8,
    // Held and new bits above 256.
    StoreFull = 9,
    // No ready frame.
    NoReadyFrame = 10,
    // An ID of neither 0 nor 20 bytes.
    IdLength = 11,
    // Output too short.
    NoRoom = 12,
    // An instant with a NaN, or of another kind than the fingerprint (02, A3).
    OtherInstant = 14,
    // Under 5 bytes.
    ContainerTooShort = 20,
    // Version.
    Version = 21,
    // Size not Length + 3.
    Length = 22,
    // Checksum.
    Checksum = 23,
    // Rate code or bit 3.
    RateOrFlags = 24,
    // ID part.
    IdPart = 25,
    // Video part.
    VideoPart = 26,
    // Audio part.
    AudioPart = 27,
    // Bytes left over.
    BytesLeftOver = 28,
    // Contents that no reading gives.
    NoSuchContents = 29,
    // Odd size or a word above 3FFh.
    NotTenBits = 30,
    // Under 7 words.
    PacketTooShort = 31,
    // First three words.
    PacketStart = 32,
    // Fourth or fifth.
    PacketNames = 33,
    // Count word's parity, or words not count + 7.
    PacketCount = 34,
    // A user word's parity.
    PacketParity = 35,
    // Checksum.
    PacketChecksum = 36,
    // Fewer than 10 bytes (02, A5).
    TransportTooShort = 40,
    // Start code.
    StartCode = 41,
    // Length.
    TransportLength = 42,
    // CRC.
    Crc = 43,
    // A recording of which nothing is kept (02, A8).
    NothingKept = 50,
    // A recording above 65,536 bytes.
    RecordingTooLong = 51,
    // D of 128 or more (02, A12).
    Late = 70,
    // D of 8 to 127.
    TooFar = 71,
    // A counter that is already held.
    AlreadyHeld = 72,
    // The next is not held.
    NextNotHeld = 73,
    // A file that is empty or cut inside a field (02, A13).
    FileCut = 80,
    // Another tag.
    OtherTag = 81,
    // More than 500 packets.
    TooManyPackets = 82,
}

impl Refusal {
    // The number that the documents give it.
    pub fn number(self) -> u8
        ensures { result ≡ number_of self }
    {
        self as u8
    }
}

impl Done {
    // An answer as the C interface and a feed's line tell it.
    pub fn of(answer: Result<usize, Refusal>) -> Done
        ensures { result ≡ done_of answer }
    {
        match answer {
            Ok(written) => Done { number: 0, written },
            Err(why) => Done {
                number: why.number(),
                written: 0,
            },
        }
    }
}

impl From<Result<usize, Refusal>> for Done {
    ghost from_gives = { λ answer done. done ≡ done_of answer };

    fn from(answer: Result<usize, Refusal>) -> Done {
        Done::of(answer)
    }
}

// The bytes of src stand in out from at on; those that out has no place for are left out.
pub fn copy_at(src: &[u8], out: &mut [u8], at: usize)
    ensures { out.new ≡ sets out.old at src.now }
{
    // Byte by byte, not by copy_from_slice: the words of an ancillary packet go two bytes at a time, and took three times as long by a call for each.
    for (i, &byte) in src.iter().enumerate() {
        if out.len() <= at {
            return;
        }
        if out.len() - at <= i {
            return;
        }
        out[at + i] = byte;
    }
}

// Present is 1, absent 0.
pub fn flag(on: bool) -> u8
    ensures { (result ≡ cond on 1 0) × (result ≤ 1) }
{
    u8::from(on)
}
