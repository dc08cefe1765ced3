//! Launches: the request that starts a child, the descriptors that the child gets, and the environment that is kept.

pub(crate) mod kept_environment;
pub(crate) mod launch_request;
pub(crate) mod linux_child;
pub(crate) mod planned;
pub(crate) mod planning;
