use super::stage::Stage;
use network::scheme::Scheme;

/// A place with a book in it: the stations and links of one scheme, which links are in service, and how far it is worked out.
#[derive(Drop)]
pub struct Book {
    pub(crate) number: u32,
    pub(crate) scheme: Scheme,
    pub(crate) stage: Stage,
}
