use qkd_base::NodeNo;
use qkd014_api::Api;

/// The node that a connection leads to: its manager, which is one of several, and the interface by which it is asked.
#[derive(Drop)]
pub(crate) struct ServedNode<'a, M> {
    pub managers: &'a M,
    pub api: &'a Api,
    pub node: NodeNo,
}
