//! Random scripts.
//!
//! One that is written whole is within the grammar. It has the configuration and exactly as many events as are asked
//! for, and its commands are those of no more sessions. Two profiles, `Refusals` and `Mixed`, name nine sessions,
//! however many are asked for. Its controls are those that are asked for, and its rules know each. In four profiles a
//! heap that never collects refuses no command, and a race writes no number twice. A failed sink and out of memory leave
//! a prefix of such a script. A device failed exactly when it is blamed.
//!
//! Tests alone show that the same options give the same bytes, and what the scripts make the collector do.
ghost use Rattle.mh_generate.specs.Generated.{WritesAsked};

use crate::chooser::Chooser;
use crate::line::{push_config_line, push_event_line};
use mh_orders::generate_options::Options;
use mh_script::fault::WriteError;
use mh_script::texts::{flush, flush_full};
use mh_text::sink::Sink;
use std::alloc::Global;

/// Writes the random script that is asked for. It depends on the options alone: the same options give the same bytes.
pub fn generate<W: Sink>(alloc: Global, options: &Options, sink: &mut W) -> Result<(), WriteError>
    ensures { WritesAsked options.now (W.device sink.old) (W.device sink.new) result }
{
    let mut chooser = Chooser::new(alloc, *options);
    let mut text = String::new(alloc);
    push_config_line(&mut text, options.config)?;
    for done in 0..options.events {
        let event = chooser.next(options, done + 1)?;
        push_event_line(&mut text, event)?;
        flush_full(sink, &mut text)?;
    }
    flush(sink, &mut text)?;
    Ok(())
}
