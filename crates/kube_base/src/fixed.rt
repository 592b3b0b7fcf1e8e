// The numbers of the fixed names, with which every list of names begins. Number 0 is the empty text.

pub const KUBELET_READY: u32 = 1;

pub const KUBELET_NOT_READY: u32 = 2;

pub const NODE_STATUS_UNKNOWN: u32 = 3;

pub const NODE_STATUS_NEVER_UPDATED: u32 = 4;

/// `node.kubernetes.io/not-ready`
pub const NOT_READY: u32 = 5;

/// `node.kubernetes.io/unreachable`
pub const UNREACHABLE: u32 = 6;

pub const KUBE_SYSTEM: u32 = 7;

pub const KUBE_CONTROLLER_MANAGER: u32 = 8;

pub const KUBE_NODE_LEASE: u32 = 9;
