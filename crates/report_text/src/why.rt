//! Why a block failed, in words.

ghost use Rattle.std.specs.Prelude.{◌≡◌, ◌+◌, ◌≤◌, ◌++◌, length};
ghost use Rattle.bio_core.specs.declared.fate.Why.{Why};
ghost use Rattle.report_text.specs.Report.{check_text, why_text};

use crate::line::{Line, add, add_hex};
use bio_core::Why;
use pi_tuple::Check;

fn check_name(check: Check) -> &'static [u8]
    ensures name { result.now ≡ check_text check }
    ensures short { length result.now ≤ 7 }
{
    match check {
        Check::Guard => b"guard",
        Check::AppTag => b"apptag",
        Check::RefTag => b"ref",
    }
}

/// Puts the layer that checked, and what it found, behind the line.
pub fn add_check(line: &mut Line, layer: &[u8], check: Check)
    requires room { length line.old.items ≤ 480 }
    requires short { length layer.now ≤ 8 }
    ensures items { line.new.items ≡ line.old.items ++ (layer.now ++ check_text check) }
    ensures bound { length line.new.items ≤ length line.old.items + 32 }
{
    add(line, layer);
    add(line, check_name(check));
}

fn add_refused(line: &mut Line, key: u8, asc: u8, ascq: u8)
    requires { length line.old.items ≤ 480 }
    ensures items { line.new.items ≡ line.old.items ++ why_text (Why.Refused key asc ascq) }
    ensures bound { length line.new.items ≤ length line.old.items + 32 }
{
    add(line, b"refused ");
    add_hex(line, &[key]);
    add(line, b" ");
    add_hex(line, &[asc]);
    add(line, b" ");
    add_hex(line, &[ascq]);
}

/// Puts why a block failed behind the line.
pub fn add_why(line: &mut Line, why: Why)
    requires { length line.old.items ≤ 480 }
    ensures items { line.new.items ≡ line.old.items ++ why_text why }
    ensures bound { length line.new.items ≤ length line.old.items + 32 }
{
    match why {
        Why::Adapter(check) => add_check(line, b"adapter ", check),
        Why::Target(check) => add_check(line, b"target ", check),
        Why::Block(check) => add_check(line, b"block ", check),
        Why::App(check) => add_check(line, b"app ", check),
        Why::Medium => add(line, b"medium"),
        Why::Refused { key, asc, ascq } => add_refused(line, key, asc, ascq),
        Why::Short => add(line, b"short"),
    }
}
