//! How host, adapter and target share protection information.

ghost use Rattle.std.specs.Prelude.{◌≡◌};
ghost use Rattle.block_path.specs.Routes.{field_for, passes};

use pi_guard::GuardKind;
use pi_tuple::PiType;

/// How the tuples of a run travel.
///
/// Whether the host has tuples and whether the wire to the target has are two choices (Data Integrity Extensions):
/// the adapter passes tuples on, makes them or takes them away.
#[derive(Clone, Copy, Debug, PartialEq, Eq)]
pub struct Mode {
    /// The guard that the tuples in the host's memory have. On the wire it is the CRC.
    pub kind: GuardKind,
    /// Whether tuples travel between host and adapter.
    pub dix: bool,
    /// Whether tuples travel between adapter and target. A unit of type 0 has none all the same.
    pub dif: bool,
    /// The protect field of commands that transfer tuples: 1, 3 or 4 (SBC-3, RDPROTECT and WRPROTECT).
    pub protect: u8,
    /// The application tag that is expected.
    pub app: u16,
    /// The bits of the application tag that are checked; 0 checks none.
    pub mask: u16,
}

impl Mode {
    /// Whether tuples of units of this type travel between adapter and target.
    pub fn passes_tuples(self, ty: PiType) -> bool
        ensures { result ≡ passes self ty }
    {
        self.dif && ty != PiType::Zero
    }

    /// The protect field of commands to units of this type: that of the mode, and 0 where no tuples travel.
    pub fn field(self, ty: PiType) -> u8
        ensures { result ≡ field_for self ty }
    {
        if self.passes_tuples(ty) {
            self.protect
        } else {
            0
        }
    }
}
