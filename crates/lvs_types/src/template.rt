//! Persistence templates (ipvsadm(8), `-p`).
use crate::{Addr, DestId, Method, TemplateId};

/// What a template is known by.
#[derive(Clone, Copy, Debug, PartialEq, Eq, PartialOrd, Ord, Hash)]
pub struct TemplateKey {
    /// 6 or 17 for a service of an address, 0 for a mark service.
    pub code: u8,
    /// The client's address with the bits past the mask cleared.
    pub client: Addr,
    /// The service's address, or its mark as an address.
    pub vaddr: Addr,
    /// The service's port, or 0.
    pub vport: u16,
}

/// A persistence template: the clients of its key go to one real server.
#[derive(Clone, Copy, Debug, PartialEq, Eq)]
pub struct Template {
    /// Its number in order of creation.
    pub id: TemplateId,
    /// What it is known by; no two templates have the same key.
    pub key: TemplateKey,
    /// None where it is unbound.
    pub server: Option<DestId>,
    /// How the packets of its clients' connections are forwarded.
    pub method: Method,
    /// The address of the real server.
    pub daddr: Addr,
    /// The port of the real server; 0 stands for the packet's destination port.
    pub dport: u16,
    /// In seconds.
    pub timeout: u32,
    /// The moment, in seconds, at which it is due.
    pub deadline: u64,
}
