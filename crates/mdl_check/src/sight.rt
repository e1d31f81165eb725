//! What a wish shows.

ghost use Rattle.std.specs.Prelude.{◌≡◌};
ghost use Rattle.mdl_check.specs.Sights.{IsFirstMetricFocus, metric_focus};

use mdl_ast::Item;
use pn_types::{CodePart, Focus};

/// A metric at a focus, in plain parts.
#[derive(Clone, Copy, PartialEq, Eq, Hash, Drop)]
pub(crate) struct MetricFocus<'a> {
    metric: &'a [u8],
    code: CodePart,
    hart: Option<u32>,
    object: Option<u32>,
}

impl<'a> MetricFocus<'a> {
    /// The metric of this name at the focus.
    pub(crate) fn new(metric: &'a [u8], focus: Focus) -> MetricFocus<'a>
        ensures { result ≡ metric_focus metric.entry focus }
    {
        MetricFocus {
            metric,
            code: focus.code,
            hart: focus.hart.map(|hart| hart.get()),
            object: focus.object,
        }
    }
}

/// What the item shows from the beginning on, if it is a wish that does.
pub(crate) fn first_sight<'a>(item: &'a Item, focus: Option<Focus>) -> Option<MetricFocus<'a>>
    ensures { IsFirstMetricFocus item.now focus result }
{
    let Item::Wish(wish) = item else {
        return None;
    };
    let Some(focus) = focus else {
        return None;
    };
    if wish.at == 0 && wish.show {
        Some(MetricFocus::new(wish.metric.bytes(), focus))
    } else {
        None
    }
}
