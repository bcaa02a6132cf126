use ledger::Ledger;
use pages::Tables;

// What a store has while it is open: the seats and the tokens, and the page map with what is counted of the
// chip's pages.
#[derive(Drop)]
pub struct Open {
    pub(crate) ledger: Ledger,
    pub(crate) tables: Tables,
}
