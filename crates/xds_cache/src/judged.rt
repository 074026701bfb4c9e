// A response that was judged.
use crate::holding::Holding;
use crate::wants::Wants;
use xds_resource::NameMap;

/// Why a response is rejected, if it is, and else what it states and which names are gone.
#[derive(Drop)]
pub struct Judged {
    pub fault: Option<String>,
    pub removed: Wants,
    pub stated: NameMap<Holding>,
}
