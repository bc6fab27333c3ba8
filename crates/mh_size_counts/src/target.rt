//! The quantum and the number of units between two that keep a share of the mutator, written exactly.
//!
//! If EVERY is given, it is the greatest quantum for that; if QUANTUM is, the least EVERY. If neither is, it is the
//! greatest quantum of all, and the least EVERY for it. What no configuration meets is `none`.
ghost use Rattle.std.specs.{Prelude.{◌≡◌, ◌≤◌, IfOk, IfSome}, String.string_bytes};
ghost use Rattle.mh_model.specs.Limits.{least_quantum};
ghost use Rattle.mh_size_counts.specs.Texts.{IsChoice, IsTargetText};

use crate::targets::{greatest_quantum, greatest_quantum_for, least_every_for};
use crate::text::{SizeText, push_optional};
use mh_model::memory::NoMemory;
use mh_orders::target_options::{Given, Target, TargetOptions};
use std::alloc::Global;

/// A quantum and after how many units of the mutator it is run, if there are such that keep the share.
#[derive(Clone, Copy, Debug, PartialEq, Eq)]
pub struct Choice {
    pub quantum: Option<u32>,
    pub every: Option<u32>,
}

fn any_choice(target: &Target) -> Choice
    ensures { IsChoice target.now Given.Nothing result }
{
    match greatest_quantum(target) {
        None => Choice {
            quantum: None,
            every: None,
        },
        Some(quantum) => Choice {
            quantum: Some(quantum),
            every: least_every_for(target, quantum),
        },
    }
}

fn chosen(options: &TargetOptions) -> Choice
    ensures { IsChoice options.now.target options.now.given result }
{
    let target = &options.target;
    match options.given {
        Given::Nothing => any_choice(target),
        Given::Every(every) => Choice {
            quantum: greatest_quantum_for(target, every),
            every: Some(every),
        },
        Given::Quantum(quantum) => Choice {
            quantum: Some(quantum),
            every: least_every_for(target, quantum),
        },
    }
}

/// What is written of a share that is to be kept: a line with the quantum, and one with the units between two.
pub fn target_text(alloc: Global, options: &TargetOptions) -> Result<SizeText, NoMemory>
    ensures { IfOk result (λ written. IsTargetText options.now (string_bytes written.text) written.is_found) }
{
    let choice = chosen(options);
    let mut text = String::new(alloc);
    push_optional(&mut text, "quantum", choice.quantum)?;
    push_optional(&mut text, "every", choice.every)?;
    Ok(SizeText {
        text,
        is_found: choice.quantum.is_some() && choice.every.is_some(),
    })
}
