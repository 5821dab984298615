// The fit rule of a sheet.
ghost use Rattle.std.specs.Prelude.{◌≡◌, true};
ghost use Rattle.rules.specs.Fitting.{layered, may_layer};
ghost use Rattle.fit.specs.Sheets.{by_fit, by_sheet};
ghost use Rattle.fit.specs.Lawful.{by_fit_lawful, by_sheet_lawful};

use crate::best::BestFit;
use crate::first::FirstFit;
use crate::layers::{Low, Snug};
use crate::question::Question;
use crate::rule::FitRule;
use rules::sheet::{Fit, Layer};

// The rule that a sheet's fit names.
#[derive(Clone, Copy, Debug, PartialEq, Eq)]
pub struct NamedFit(pub Fit);

impl FitRule for NamedFit {
    ghost answers = { λ n. by_fit n.0 };

    ghost lawful = { λ r. by_fit_lawful r.0 };

    fn fit(&self, q: Question<'_>) -> Option<(u32, u32)> {
        match self.0 {
            Fit::First => FirstFit.fit(q),
            Fit::Best => BestFit.fit(q),
        }
    }
}

// The rule of a sheet: the fit that it names, under at most one layer of each sort.
#[derive(Clone, Copy, Debug, PartialEq, Eq)]
pub enum SheetRule {
    Plain(NamedFit),
    LowOnly(Low<NamedFit>),
    SnugOnly(Snug<NamedFit>),
    LowOutside(Low<Snug<NamedFit>>),
    SnugOutside(Snug<Low<NamedFit>>),
}

impl SheetRule {
    // The fit under the layers, of which a later one is outside an earlier one. Of a longer list only the last layers count.
    pub fn of(fit: Fit, layers: &[Layer]) -> SheetRule
        ensures { may_layer layers.now ≡ true → by_sheet result ≡ layered (by_fit fit) layers.now }
    {
        let rule = NamedFit(fit);
        match layers {
            &[.., Layer::LowLine(line), Layer::SnugLimit(limit)] => SheetRule::SnugOutside(Snug {
                limit,
                rule: Low { line, rule },
            }),
            &[.., Layer::SnugLimit(limit), Layer::LowLine(line)] => SheetRule::LowOutside(Low {
                line,
                rule: Snug { limit, rule },
            }),
            &[.., Layer::LowLine(line)] => SheetRule::LowOnly(Low { line, rule }),
            &[.., Layer::SnugLimit(limit)] => SheetRule::SnugOnly(Snug { limit, rule }),
            [] => SheetRule::Plain(rule),
        }
    }
}

impl FitRule for SheetRule {
    ghost answers = { by_sheet };

    ghost lawful = { λ r. by_sheet_lawful r };

    fn fit(&self, q: Question<'_>) -> Option<(u32, u32)> {
        // kept: each arm calls the `fit` of another type
        match self {
            SheetRule::Plain(rule) => rule.fit(q),
            SheetRule::LowOnly(rule) => rule.fit(q),
            SheetRule::SnugOnly(rule) => rule.fit(q),
            SheetRule::LowOutside(rule) => rule.fit(q),
            SheetRule::SnugOutside(rule) => rule.fit(q),
        }
    }
}
