// What is known of the row of a key.
use pp_fresh::Times;
use pp_text::Fields;
use pp_valid::Version;

/// The row of the request's key, as far as a decision rests on it.
#[derive(Drop)]
pub struct PlanRow<'r, 's> {
    pub version: &'r Version,
    /// The kept fields of its response.
    pub fields: Fields<'r, 's>,
    pub times: Times,
    /// Whether each offset of `span` is held.
    pub held: bool,
}
