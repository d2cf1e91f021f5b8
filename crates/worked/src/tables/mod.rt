// All tables of worked cases.
pub(crate) mod full;
pub(crate) mod lines;
pub(crate) mod lists;
pub(crate) mod readings;
pub(crate) mod refusals;
pub(crate) mod runs;
pub(crate) mod small;
pub(crate) mod surcharges;
pub(crate) mod two_boxes;
pub(crate) mod weights;

use crate::theme::Theme;

// The tables in the order of the report.
pub(crate) fn all() -> [&'static [Theme]; 11] {
    [
        two_boxes::themes(),
        weights::themes(),
        small::themes(),
        surcharges::themes(),
        lists::themes(),
        refusals::themes(),
        full::themes(),
        runs::themes(),
        readings::written(),
        readings::in_one_call(),
        lines::themes(),
    ]
}
