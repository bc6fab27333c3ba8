//! What is wished for next: by the mix of a profile, or by acts where a heap runs along. No theorem rests on it.
ghost use Rattle.std.specs.Prelude.{◌<◌};

use crate::mix::{Mix, SPEAKERS};
use crate::random::Random;
use crate::scene::Scene;
use crate::sight::Sight;
use mh_heap::plain::PlainHeap;
use mh_model::command::{Command, Control};
use mh_orders::generate_options::Options;

/// The mix and the acts, of which a script has one.
#[derive(Drop)]
pub(crate) struct Wishes {
    options: Options,
    random: Random,
    mix: Mix,
    scene: Scene,
    has_acts: bool,
}

impl Wishes {
    pub(crate) fn new(options: Options, has_acts: bool) -> Wishes {
        Wishes {
            options,
            random: Random::new(options.seed),
            mix: Mix::new(options),
            scene: Scene::new(),
            has_acts,
        }
    }

    /// Begins the next event, and gives the control that it is by chance, if it is one.
    pub(crate) fn begin_event(&mut self) -> Option<Control> {
        self.mix.begin_event()
    }

    pub(crate) fn speaker(&mut self) -> u8 {
        if self.has_acts {
            self.scene.speaker(&self.options, &mut self.random)
        } else {
            self.mix.speaker()
        }
    }

    pub(crate) fn command(&mut self, who: u8, number: u32, heap: &PlainHeap) -> Command
        requires { who < SPEAKERS }
    {
        if self.has_acts {
            let sight = Sight { heap, who };
            self.scene
                .command(sight, &self.options, number, &mut self.random)
        } else {
            self.mix.command(who)
        }
    }
}
