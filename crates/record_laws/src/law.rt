//! One exchange.

ghost use Rattle.record_laws.specs.Answered.{ExchangePuts};

/// A law: what one exchange with a rig that tells its blocks puts on record is the unit's answer, without faults and
/// where no store call failed, with room for just what the command reads. What stood in that room makes no difference.
pub fn an_exchange_puts_its_answer()
    ensures { ExchangePuts }
{}
