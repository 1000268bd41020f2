//! What a protect field asks for.

ghost use Rattle.std.specs.Prelude.{◌≡◌};
ghost use Rattle.device_commands.specs.Lengths.{asked};

/// The checks that RDPROTECT, WRPROTECT or VRPROTECT asks of the protection information that travels, as flags of what a
/// check wants: 2 the guard, 4 the application tag, 8 the reference tag (SBC-3, the tables of 5.11, 5.28 and 5.32).
/// 001b and 101b ask for all, 010b for the tags, 100b for the guard. 1, which says that nothing is checked, is answered
/// for 011b, and for 000b, with which none travels; 0, with which no check is made, for a reserved value.
pub fn checks_asked(protect: u32) -> u32
    ensures { result ≡ asked protect }
{
    match protect {
        0 | 3 => 1,
        1 | 5 => 14,
        2 => 12,
        4 => 2,
        _ => 0,
    }
}
