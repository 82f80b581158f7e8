// What the columns' entries are, by the words of the definitions' table, as specs/Kinds.antt has them.
ghost use Rattle.std.specs.Prelude.{◌≡◌};
ghost use Rattle.machine.specs.Fetch.{names_a, names_b};
ghost use Rattle.machine.specs.Stages.{loading, storing};
ghost use Rattle.lookup.specs.Kinds.{byte_meant, accesses_meant};

// What the register byte is: there is none; rA rB; F rB; rA F.
#[derive(Clone, Copy, PartialEq, Eq)]
pub enum RegisterByte {
    NoByte,
    BothNamed,
    OnlyB,
    OnlyA,
}

impl RegisterByte {
    // The first half names a register.
    #[tactic(auto, unfolding(crate::specs::Kinds::byte_meant, machine::specs::Fetch::names_a))]
    pub fn names_a(self) -> bool
        ensures { result ≡ names_a (byte_meant self) }
    {
        matches!(self, RegisterByte::BothNamed | RegisterByte::OnlyA)
    }

    // The second half names a register.
    #[tactic(auto, unfolding(crate::specs::Kinds::byte_meant, machine::specs::Fetch::names_b))]
    pub fn names_b(self) -> bool
        ensures { result ≡ names_b (byte_meant self) }
    {
        matches!(self, RegisterByte::BothNamed | RegisterByte::OnlyB)
    }
}

// Which register a source or a target is.
#[derive(Clone, Copy, PartialEq, Eq)]
pub enum Which {
    None,
    Ra,
    Rb,
    Rsp,
}

// What execute computes: nothing, valB OP valA, valA, C, valB + C, valB - 8, valB + 8.
#[derive(Clone, Copy, PartialEq, Eq)]
pub enum Computes {
    Nothing,
    BOpA,
    JustA,
    JustC,
    BPlusC,
    BLess8,
    BPlus8,
}

// What the memory stage does: nothing, load at valE, load at valA, store valA, store the next address.
#[derive(Clone, Copy, PartialEq, Eq)]
pub enum Accesses {
    NoAccess,
    LoadsAtE,
    LoadsAtA,
    StoresA,
    StoresNext,
}

impl Accesses {
    #[tactic(auto, unfolding(crate::specs::Kinds::accesses_meant, machine::specs::Stages::loading))]
    pub fn loads(self) -> bool
        ensures { result ≡ loading (accesses_meant self) }
    {
        matches!(self, Accesses::LoadsAtE | Accesses::LoadsAtA)
    }

    #[tactic(auto, unfolding(crate::specs::Kinds::accesses_meant, machine::specs::Stages::storing))]
    pub fn stores(self) -> bool
        ensures { result ≡ storing (accesses_meant self) }
    {
        matches!(self, Accesses::StoresA | Accesses::StoresNext)
    }
}
