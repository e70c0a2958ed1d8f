//! The size of a chart.
ghost use Rattle.std.specs.Prelude.{◌≡◌, ◌*◌, MatchResult};
ghost use Rattle.format.specs.Limits.{Sized};
ghost use Rattle.format.specs.Refusals.{refusal, told};
ghost use Rattle.format.specs.declared.fault.Layer.TheVariants as layer;

use format::fault::{ChartFault, Fault};
use format::limits::{MOST_CELLS, MOST_SIDE};

/// A width and a height within their limits.
#[derive(Clone, Copy, PartialEq, Eq, Debug)]
pub struct Size {
    pub width: usize,
    pub height: usize,
    ghost sized: { Sized width height },
}

/// One cell: the size of a new chart.
impl Default for Size {
    ghost is_default = { λ s. (s.width ≡ 1) × (s.height ≡ 1) };

    fn default() -> Size {
        Size {
            width: 1,
            height: 1,
        }
    }
}

impl Size {
    // two numbers here, and where a chart is opened or a window placed: those calls are the test that makes a size of them
    /// That width and height; refused with 14 where they are outside their limits.
    pub fn new(width: usize, height: usize) -> Result<Size, Fault>
        ensures { MatchResult result
            (λ s. (s.width ≡ width) × (s.height ≡ height))
            (λ e. (Sized width height → ⊥) × (refusal e ≡ told 14 layer.Charts 0 0 0)) }
    {
        let side = MOST_SIDE as usize;
        if width < 1 || width > side || height < 1 || height > side {
            return Err(ChartFault::Limits.into());
        }
        if width * height > MOST_CELLS as usize {
            return Err(ChartFault::Limits.into());
        }
        Ok(Size { width, height })
    }

    /// How many cells there are.
    pub fn cells(&self) -> usize
        ensures { result ≡ self.now.width * self.now.height }
    {
        self.width * self.height
    }
}
