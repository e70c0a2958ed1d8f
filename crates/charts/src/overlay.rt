//! One chart over another.
ghost use Rattle.std.specs.Prelude.{◌≡◌};
ghost use Rattle.charts.specs.Overlays.{merged, overlaid, default_rule, overlay_picture};
ghost use Rattle.charts.specs.Lawfulness.{lawful_overlaid};

use crate::chart::{Chart, Run};
use crate::row::run_in_row;
use crate::size::Size;

/// Which of two levels an overlay takes.
#[derive(Clone, Copy, PartialEq, Eq, Debug, Default)]
pub enum Rule {
    /// The greater level; taken where no rule is named.
    #[default]
    Higher,
    /// The first chart's level, unless it is 0.
    Fill,
}

impl Rule {
    /// The level that the rule takes of the first chart's and the second's.
    pub fn level(self, first: u8, second: u8) -> u8
        ensures { result ≡ merged self first second }
    {
        // a match and no closure: a rule is a value, which an overlay keeps and takes another for
        match self {
            Rule::Higher => first.max(second),
            Rule::Fill => if first == 0 { second } else { first },
        }
    }
}

/// Two charts joined by column and row, of the first one's size; the second counts as 0 outside itself.
#[derive(Drop)]
pub struct Overlay<A, B> {
    first: A,
    second: B,
    rule: Rule,
}

impl<A: Chart, B: Chart> Overlay<A, B> {
    /// Two charts with no rule named.
    pub fn over(first: A, second: B) -> Overlay<A, B>
        ensures charts { (result.first ≡ first) × (result.second ≡ second) }
        ensures picture { overlay_picture A.Chart.picture B.Chart.picture result ≡ overlaid default_rule (A.Chart.picture first) (B.Chart.picture second) }
    {
        Overlay::with_rule(first, second, Rule::default())
    }

    /// Two charts by a rule.
    pub fn with_rule(first: A, second: B, rule: Rule) -> Overlay<A, B>
        ensures charts { (result.first ≡ first) × (result.second ≡ second) }
        ensures picture { overlay_picture A.Chart.picture B.Chart.picture result ≡ overlaid rule (A.Chart.picture first) (B.Chart.picture second) }
    {
        Overlay {
            first,
            second,
            rule,
        }
    }

    /// Takes another rule from now on.
    pub fn set_rule(&mut self, rule: Rule)
        ensures charts { (self.new.first ≡ self.old.first) × (self.new.second ≡ self.old.second) }
        ensures picture { overlay_picture A.Chart.picture B.Chart.picture self.new ≡ overlaid rule (A.Chart.picture self.old.first) (B.Chart.picture self.old.second) }
    {
        self.rule = rule;
    }

    /// Hands the two charts back.
    pub fn into_charts(self) -> (A, B)
        ensures { (result.0 ≡ self.first) × (result.1 ≡ self.second) }
    {
        (self.first, self.second)
    }
}

// `over` by another name: the chart has this name
/// The hazard chart: at each cell the higher level of inundation and flood.
pub fn hazard<A: Chart, B: Chart>(inundation: A, flood: B) -> Overlay<A, B>
    ensures charts { (result.first ≡ inundation) × (result.second ≡ flood) }
    ensures picture { overlay_picture A.Chart.picture B.Chart.picture result ≡ overlaid Rule.Higher (A.Chart.picture inundation) (B.Chart.picture flood) }
{
    Overlay::over(inundation, flood)
}

impl<A: Chart, B: Chart> Chart for Overlay<A, B> {
    ghost picture = { overlay_picture A.Chart.picture B.Chart.picture };

    ghost lawful = { λ c. lawful_overlaid c.rule (A.Chart.picture c.first) (B.Chart.picture c.second) (A.Chart.lawful c.first) (B.Chart.lawful c.second) };

    fn size(&self) -> Size {
        self.first.size()
    }

    fn run(&mut self, cell: usize) -> Run {
        let size = self.first.size();
        if cell >= size.cells() {
            return Run::default();
        }
        let row = cell / size.width;
        let column = cell % size.width;
        let first = self.first.run(cell);
        let most = first.length.min(size.width - column);
        let second = run_in_row(&mut self.second, row, column, most);
        Run {
            level: self.rule.level(first.level, second.level),
            length: second.length,
        }
    }
}
