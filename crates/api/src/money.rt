// The working of an event's money: its penalty, its plant's part of E, the instances that were counted, its make-up payment.
ghost use Rattle.std.specs.Prelude.{◌≡◌, length};
ghost use Rattle.penalty_terms.specs.PenaltyWorking.{penalty_working_of};
ghost use Rattle.subtotal.specs.Subtotal.{subtotal_answer};
ghost use Rattle.counted_instances.specs.CountedInstances.{instances_answer, instances_out};
ghost use Rattle.make_up_terms.specs.MakeUpWorking.{make_up_working_of};
ghost use Rattle.api.specs.Exported.{exported};

use crate::exported_answers::{ExportedAnswer, of_figure};
use counted_instances::instance_bits::instances;
use make_up_terms::make_up_working::{MakeUpWorking, make_up_working};
use penalty_terms::penalty_working::{PenaltyWorking, penalty_working};
use subtotal::subtotal_call::subtotal;

// The terms of an event's penalty: the refusal's number, 10 where there is no such event, or 0 and the terms.
#[unsafe(no_mangle)]
pub extern "C" fn attachment_h_penalty_working<'a>(
    file: &'a [u8],
    correction: &'a [u8],
    event: usize,
) -> PenaltyWorking
    ensures { result ≡ penalty_working_of file.now correction.now event }
{
    penalty_working(file, correction, event)
}

// A plant's part of its party-day's E: the refusal's number, 10 where the event is no fuel event, or 0 and the part as a signed word.
#[unsafe(no_mangle)]
pub extern "C" fn attachment_h_subtotal(file: &[u8], event: usize) -> ExportedAnswer
    ensures { result ≡ exported (subtotal_answer file.now event) }
{
    of_figure(subtotal(file, event))
}

// Puts the lists of what N3 and N2 of an event counted into out; where it is refused out is as it was.
#[unsafe(no_mangle)]
pub extern "C" fn attachment_h_instances<'a>(
    file: &'a [u8],
    correction: &'a [u8],
    event: usize,
    out: &mut [u8],
) -> u8
    ensures value { result ≡ instances_answer file.now correction.now event (length out.old) }
    ensures out_after { out.new ≡ instances_out file.now correction.now event out.old }
{
    instances(file, correction, event, out)
}

// The terms of an event's make-up payment, likewise.
#[unsafe(no_mangle)]
pub extern "C" fn attachment_h_make_up_working<'a>(
    file: &'a [u8],
    correction: &'a [u8],
    event: usize,
) -> MakeUpWorking
    ensures { result ≡ make_up_working_of file.now correction.now event }
{
    make_up_working(file, correction, event)
}
