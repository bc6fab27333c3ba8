//! The windows of a list, each by the one before it, and units of a window as a share of it. A share is in hundredths of a
//! per cent, rounded down, since all numbers here are whole.
ghost use Rattle.std.specs.Prelude.{◌≡◌, ◌<◌, Some};
ghost use Rattle.mh_model.specs.declared.birth.TheConstants.{LIFE};
ghost use Rattle.mh_report.specs.Windows.{next_window, percent_text, share_of};

use std::fmt;

/// The window after one: an eighth longer, rounded down, and 1 longer at least.
pub fn next_window(window: u64) -> u64
    requires { window < LIFE }
    ensures { result ≡ next_window window }
{
    window + (window / 8).max(1)
}

/// Units of a window as parts of ten thousand of it, rounded down.
pub fn share(units: u64, window: u64) -> u128
    ensures { result ≡ share_of units window }
{
    if window == 0 {
        return 0;
    }
    u128::from(units) * 10_000 / u128::from(window)
}

/// Parts of ten thousand in per cent.
#[derive(Clone, Copy)]
pub struct PercentText(pub u128);

impl fmt::Display for PercentText {
    ghost output = { λ text. Some (percent_text text.0) };

    fn fmt<W: fmt::Write>(&self, f: &mut fmt::Formatter<W>) -> fmt::Result {
        let whole = self.0 / 100;
        let tenths = self.0 / 10 % 10;
        let hundredths = self.0 % 10;
        write!(f, "{whole}.{tenths}{hundredths}")
    }
}
