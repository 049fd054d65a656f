use crate::service::show::{show_reply, show_state};
use crate::service::step::{Service, apply};
use cv_base::NoMemory;
use cv_transcript::reply_name;
use std::alloc::Global;
use test_plain::{Lines, Step};

/// Applies an event, and writes the reply and the state after it. It gives the name of the reply.
pub fn report_step(
    alloc: Global,
    core: &mut Service,
    step: Step<'_>,
    out: &mut Lines,
) -> &'static str {
    out.word(" -> ");
    let name = write_reply(alloc, core, step, out);
    show_state(alloc, out, core);
    name
}

/// Applies an event, and writes the reply.
fn write_reply(alloc: Global, core: &mut Service, step: Step<'_>, out: &mut Lines) -> &'static str {
    match apply(alloc, core, step) {
        Ok(Some(reply)) => {
            show_reply(out, &reply);
            reply_name(&reply)
        }
        Ok(None) => {
            out.word("not an event for a core");
            ""
        }
        Err(NoMemory) => {
            out.fail();
            ""
        }
    }
}
