// What a tree keeps for a node.
ghost use Rattle.std.specs.Prelude.{◌≡◌, ◌+◌, ◌<◌, ◌≤◌, ◌^◌, IfOk, IfErr};
ghost use Rattle.kh_tree.specs.Entries.{node_of};
ghost use Rattle.kh_tree.specs.Node.{new_node, with_child, with_payload};
ghost use Rattle.kh_tree.specs.Nodes.{most_version};
ghost use Rattle.kh_tree.specs.Writes.{Refused};

use crate::error::TreeError;
use crate::payload::{Payload, same_payload};
use crate::tree::MOST_VERSION;
use kh_shared::{NoMemory, Shared};
use std::alloc::Global;

/// A node, whose payload is shared between the versions of its tree, and the number of its children.
#[derive(Drop)]
pub(crate) struct Entry<S> {
    pub(crate) payload: Shared<Payload<S>>,
    pub(crate) payload_version: u64,
    pub(crate) child_list_version: u64,
    pub(crate) children: u64,
}

impl<S> Entry<S> {
    /// A node with both versions 1.
    pub(crate) fn new(
        alloc: Global,
        payload: Payload<S>,
        children: u64,
    ) -> Result<Entry<S>, NoMemory>
    where
        S: Drop,
        ensures node { IfOk result (λ e. node_of e ≡ new_node payload) }
        ensures children { IfOk result (λ e. e.children ≡ children) }
    {
        Ok(Entry {
            payload: Shared::new(alloc, payload)?,
            payload_version: 1,
            child_list_version: 1,
            children,
        })
    }

    /// The node once it has one child more.
    pub(crate) fn with_child(&self) -> Entry<S>
        requires version { self.now.child_list_version < 2 ^ 62 }
        requires children { self.now.children < 2 ^ 62 }
        ensures node { node_of result ≡ with_child (node_of self.now) }
        ensures children { result.children ≡ self.now.children + 1 }
    {
        Entry {
            payload: self.payload.share(),
            payload_version: self.payload_version,
            child_list_version: self.child_list_version + 1,
            children: self.children + 1,
        }
    }
}

impl<S: Eq + Drop> Entry<S> {
    /// The node with a payload. Its payload version is one more where the payload differs.
    pub(crate) fn with_payload(
        &self,
        alloc: Global,
        payload: Payload<S>,
    ) -> Result<Entry<S>, TreeError>
        ensures node { IfOk result (λ e. node_of e ≡ with_payload S.eq payload (node_of self.now)) }
        ensures children { IfOk result (λ e. e.children ≡ self.now.children) }
        ensures room { IfOk result (λ e. self.now.payload_version ≤ most_version → e.payload_version ≤ most_version) }
        ensures full { IfErr result (λ e. Refused e
            ((with_payload S.eq payload (node_of self.now)).payload_version ≤ most_version)) }
    {
        let payload_version = if same_payload(self.payload.as_ref(), &payload) {
            self.payload_version
        } else if self.payload_version < MOST_VERSION {
            self.payload_version + 1
        } else {
            return Err(TreeError::StoreFull);
        };
        Ok(Entry {
            payload: Shared::new(alloc, payload)?,
            payload_version,
            child_list_version: self.child_list_version,
            children: self.children,
        })
    }
}
