// The pipelined engine's limit and its types, and what these carry. What they mean, document 01's five-stage rules, is in specs/.

#![tactic(auto)]

ghost use Rattle.std.specs.Prelude.{◌≡◌, ℕ, Bool};
ghost use Rattle.machine.specs.declared.Instruction.{Instruction as InstructionOf};

use machine::{Accessed, Blame, Codes, Decoded, Executed, Instruction, REGISTERS, Status, Window};

// The most cycles that are not refused.
pub const PIPE_LIMIT: u64 = 262145;

// The prediction rules have the numbers 0 to 2 (#105).
pub const LAST_RULE: u8 = 2;

// In what one core may differ from another: the number of the rule by which it predicts conditional jumps, and whether a store's data may come late;
// with them the code window.
#[derive(Clone, Copy)]
pub struct Settings {
    pub rule: u8,
    pub late: bool,
    pub window: Window,
}

// What is kept of the last instruction retired with AOK, for its follower's charge.
#[derive(Clone, Copy)]
pub struct Retired {
    pub instruction: Instruction,
    pub holds: bool,
    pub patched: bool,
}

// Each stage holds an instruction, or a bubble, which is none.
pub type StageD = Option<Instruction>;

pub type StageE = Option<Decoded>;

pub type StageM = Option<Executed>;

pub type StageW = Option<Accessed>;

// What is kept, if an instruction retired yet.
pub type Kept = Option<Retired>;

// Why an instruction is charged.
#[derive(Clone, Copy, PartialEq, Eq)]
pub enum Reason {
    Waited,
    WronglyGuessed,
    Returned,
    Patched,
}

// The cycles charged so far, by kind.
#[derive(Clone, Copy)]
pub struct Kinds {
    pub loaduse: u64,
    pub mispredict: u64,
    pub returned: u64,
    pub patched: u64,
}

// The pipelined engine's record: its settings, which stay; F is the predicted address alone; what a bad fetch that stopped it is blamed on comes last.
#[derive(Clone, Copy)]
pub struct Pipeline {
    pub settings: Settings,
    pub predicted: u64,
    pub d: StageD,
    pub e: StageE,
    pub m: StageM,
    pub w: StageW,
    pub registers: [u64; REGISTERS],
    pub codes: Codes,
    pub status: Status,
    pub last: u64,
    pub retired: u64,
    pub cycles: u64,
    pub kinds: Kinds,
    pub kept: Kept,
    pub blame: Blame,
}

// What carries an instruction: what stands in a stage, and what is kept.
pub trait Carries {
    ghost instruction_of: { Self → InstructionOf };

    fn instruction(self) -> Instruction
        ensures { result ≡ instruction_of self };
}

impl Carries for Instruction {
    ghost instruction_of = { λ i. i };

    fn instruction(self) -> Instruction {
        self // in D an instruction stands by itself
    }
}

impl Carries for Decoded {
    ghost instruction_of = { λ x. x.instruction };

    fn instruction(self) -> Instruction {
        self.instruction
    }
}

impl Carries for Executed {
    ghost instruction_of = { λ x. x.instruction };

    fn instruction(self) -> Instruction {
        self.instruction
    }
}

impl Carries for Accessed {
    ghost instruction_of = { λ x. x.instruction };

    fn instruction(self) -> Instruction {
        self.instruction
    }
}

impl Carries for Retired {
    ghost instruction_of = { λ k. k.instruction };

    fn instruction(self) -> Instruction {
        self.instruction
    }
}

// What has been executed carries its result too, and whether its condition holds.
pub trait Finished: Carries {
    ghost result_of: { Self → ℕ };

    ghost holds_of: { Self → Bool };

    fn result(self) -> u64
        ensures { result ≡ result_of self };

    fn holds(self) -> bool
        ensures { result ≡ holds_of self };
}

impl Finished for Executed {
    ghost result_of = { λ x. x.result };

    ghost holds_of = { λ x. x.holds };

    fn result(self) -> u64 {
        self.result
    }

    fn holds(self) -> bool {
        self.holds
    }
}

impl Finished for Accessed {
    ghost result_of = { λ w. w.result };

    ghost holds_of = { λ w. w.holds };

    fn result(self) -> u64 {
        self.result // and not the word that was loaded
    }

    fn holds(self) -> bool {
        self.holds // and not whether the window was written
    }
}
