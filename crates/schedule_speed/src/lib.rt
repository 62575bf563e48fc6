// What `schedule::overfull` answers, under a C name, so that a program in another language can be held against it.
#![tactic(auto)]

ghost use Rattle.std.specs.Prelude.{◌≡◌};
ghost use Rattle.schedule.specs.Answers.{BoundsExactlyOutsideLimits, FirstOverfullOrNone, NoneExactlyWhenAssigned};
ghost use Rattle.schedule.specs.Orders.{charged};
ghost use Rattle.schedule_speed.specs.Code.{Coded};

use schedule::{Work, overfull};

// What `overfull` answers, as one number, since C has no `Result` and no `Option`: l·2³² + h for a span, 2⁶⁴ - 1 for
// none, 2⁶⁴ - 2 for a refusal.
#[unsafe(no_mangle)]
pub extern "C" fn schedule_overfull_code(slot: u32, work: &[Work]) -> u64
    ensures { Coded slot work.now result }
{
    match overfull(slot, work) {
        Ok(Some(span)) => span.l as u64 * 0x1_0000_0000 + span.h as u64,
        Ok(None) => 0xffff_ffff_ffff_ffff,
        Err(_) => 0xffff_ffff_ffff_fffe,
    }
}
