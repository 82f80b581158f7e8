// The numbers of document 01 that the code names, and the types of instructions and of the plain engine. What they mean, document 01's rules, is in specs/.

#![tactic(auto)]

ghost use Rattle.std.specs.Prelude.{◌≡◌};
ghost use Rattle.machine.specs.Types.{status_number, fault_number, faulty, codes_number, codes_from};

// The codes that a rule names by themselves. They stay numbers, as document 01 has them: a record made by hand may hold any code, and is refused.
pub const HALT: u8 = 0;

pub const NOP: u8 = 1;

pub const CMOV: u8 = 2;

pub const OPERATION: u8 = 6;

pub const JUMP: u8 = 7;

pub const CALL: u8 = 8;

pub const RET: u8 = 9;

pub const IADDQ: u8 = 12;

// Registers 0 to 14, of which 4 is rsp; "15 means none": document 01's own number, which a record made by hand may pass.
pub const REGISTERS: usize = 15;

pub const RSP: u8 = 4;

pub const NONE: u8 = 15;

// The most that is not refused: bytes of memory, instructions of the plain engine.
pub const MEMORY_LIMIT: usize = 65536;

pub const PLAIN_LIMIT: u64 = 65536;

// AOK, or why a machine stopped.
#[derive(Clone, Copy, PartialEq, Eq)]
pub enum Status {
    Aok,
    Hlt,
    Adr,
    Ins,
}

// "Status: AOK 1, HLT 2, ADR 3, INS 4."
impl From<Status> for u64 {
    ghost from_gives = { λ s n. n ≡ status_number s };

    #[tactic(auto, unfolding(crate::specs::Types::status_number))]
    fn from(status: Status) -> u64 {
        match status {
            Status::Aok => 1,
            Status::Hlt => 2,
            Status::Adr => 3,
            Status::Ins => 4,
        }
    }
}

// Why a fetch failed: document 02's reasons (#107).
#[derive(Clone, Copy, PartialEq, Eq)]
pub enum Fault {
    FirstMissing,
    NoCode,
    NoFunction,
    LaterMissing,
    NoRegister,
}

// The reasons' numbers, in document 02's order.
impl From<Fault> for u64 {
    ghost from_gives = { λ f n. n ≡ fault_number (faulty f) };

    #[tactic(auto, unfolding(crate::specs::Types::fault_number))]
    fn from(fault: Fault) -> u64 {
        match fault {
            Fault::FirstMissing => 1,
            Fault::NoCode => 2,
            Fault::NoFunction => 3,
            Fault::LaterMissing => 4,
            Fault::NoRegister => 5,
        }
    }
}

// The reason of a failed fetch, and the address of the byte at fault: none, and 0, where no fetch failed.
#[derive(Clone, Copy)]
pub struct Blame {
    pub fault: Option<Fault>,
    pub address: u64,
}

// The condition codes ZF, SF and OF.
#[derive(Clone, Copy, PartialEq, Eq)]
pub struct Codes {
    pub zf: bool,
    pub sf: bool,
    pub of: bool,
}

// "codes as 4ZF + 2SF + OF"
impl From<Codes> for u64 {
    ghost from_gives = { λ c n. n ≡ codes_number c };

    #[tactic(auto, unfolding(crate::specs::Types::codes_number))]
    fn from(codes: Codes) -> u64 {
        4 * u64::from(codes.zf) + 2 * u64::from(codes.sf) + u64::from(codes.of)
    }
}

impl From<u64> for Codes {
    ghost from_gives = { λ n c. c ≡ codes_from n };

    #[tactic(auto, unfolding(crate::specs::Types::codes_from))]
    fn from(number: u64) -> Codes {
        Codes {
            zf: number / 4 == 1,
            sf: number / 2 % 2 == 1,
            of: number % 2 == 1,
        }
    }
}

// The code window, if there is one: its first address, and its end, which is not in it.
pub type Window = Option<(u64, u64)>;

// The plain engine's machine record; what a bad fetch that stopped it is blamed on and the code window come last.
#[derive(Clone, Copy)]
pub struct Machine {
    pub registers: [u64; REGISTERS],
    pub codes: Codes,
    pub address: u64,
    pub status: Status,
    pub last: u64,
    pub count: u64,
    pub blame: Blame,
    pub window: Window,
}

// An instruction as it was fetched: where it stands, its status at fetch, its fields, the address that follows it, and why its fetch failed.
#[derive(Clone, Copy)]
pub struct Instruction {
    pub address: u64,
    pub status: Status,
    pub code: u8,
    pub function: u8,
    pub ra: u8,
    pub rb: u8,
    pub constant: u64,
    pub next: u64,
    pub fault: Option<Fault>,
}

// What fetching gives back: the instruction, and what a bad fetch is blamed on.
#[derive(Clone, Copy)]
pub struct Fetched {
    pub instruction: Instruction,
    pub blame: Blame,
}

// What stands in E: an instruction with the values of its two sources.
#[derive(Clone, Copy)]
pub struct Decoded {
    pub instruction: Instruction,
    pub a: u64,
    pub b: u64,
}

// What stands in M: the first source's value is kept, for it may be the word to store or the address to load from.
#[derive(Clone, Copy)]
pub struct Executed {
    pub instruction: Instruction,
    pub a: u64,
    pub result: u64,
    pub holds: bool,
}

// What stands in W: the word loaded, the status after the access, and whether it wrote into the window.
#[derive(Clone, Copy)]
pub struct Accessed {
    pub instruction: Instruction,
    pub result: u64,
    pub holds: bool,
    pub word: u64,
    pub status: Status,
    pub patched: bool,
}
