//! Callback groups and their numbers.
ghost use Rattle.std.specs.Prelude.{◌≡◌, ◌++◌, map, IfOk, OnOk};
ghost use Rattle.exec_graph.specs.Numbers.{groups_of, named_group};

use crate::draft::texts::TextSet;
use crate::draft::{GraphDraft, GroupDraft};
use exec_msg::Memory;
use exec_plan::CallbackGroup;
use exec_script::WordText;
use std::alloc::Global;
use std::marker::Model;

// The callback groups of a node, by name.
#[derive(Drop)]
pub(crate) struct NodeGroups<'a> {
    // The number of its default group. The groups with names come after it.
    first: usize,
    names: TextSet<'a>,
}

impl<'a> Model for NodeGroups<'a> {
    ghost use Rattle.std.specs.Prelude.{◌<◌, ◌+◌, ◌^◌, suc, length};
    ghost use Rattle.exec_graph.specs.inner.Directory.{NodeGroupsData};

    ghost Value = { NodeGroupsData };

    ghost view = { λ groups. record { first = groups.first; names = groups.names } };

    ghost invariant = { λ groups. suc groups.first + length groups.names < 2 ^ 64 };
}

impl<'a> NodeGroups<'a> {
    ghost use Rattle.std.specs.Prelude.{◌≡◌, ◌+◌, ◌^◌, ◌≤◌, suc, length, Some, IfOk, OnErr};
    ghost use Rattle.exec_graph.specs.inner.Directory.{number_among};

    // The groups of these names. They come after the default group of this number. There is no memory for groups whose numbers
    // have more than 64 bits.
    pub(crate) fn of(first: usize, names: TextSet<'a>) -> Result<NodeGroups<'a>, Memory>
        ensures groups { IfOk result (λ groups. groups ≡ record { first = first; names = names.entry }) }
        ensures memory { OnErr result (2 ^ 64 ≤ suc first + length names.entry) }
    {
        let behind_default = first.checked_add(1).ok_or(Memory)?;
        behind_default.checked_add(names.len()).ok_or(Memory)?;
        Ok(NodeGroups { first, names })
    }

    // The number of the next node's default group.
    pub(crate) fn next(&self) -> usize
        ensures { result ≡ suc self.now.first + length self.now.names }
    {
        self.first + 1 + self.names.len()
    }

    // The number of the group of a name, or of the default group, which has none.
    pub(crate) fn number(&self, name: &Option<WordText>) -> Option<usize>
        ensures { result ≡ number_among name.now self.now }
    {
        match name {
            None => Some(self.first),
            Some(name) => self.number_named(name),
        }
    }

    fn number_named(&self, name: &WordText) -> Option<usize>
        ensures { result ≡ number_among (Some name.now) self.now }
    {
        let place = self.names.position(name.as_str())?;
        Some(self.first + 1 + place)
    }
}

// The groups of a draft in the order of their numbers: each node's default group, and then its named groups.
pub(crate) fn groups_of(alloc: Global, draft: &GraphDraft) -> Result<Vec<CallbackGroup>, Memory>
    ensures { IfOk result (λ groups. groups.items ≡ groups_of draft.now) }
{
    let nodes = draft.nodes.as_slice();
    let mut groups = Vec::new(alloc);
    for (number, node) in nodes.iter().enumerate() {
        groups.push(CallbackGroup {
            node: number,
            name: None,
            exclusive: true,
        })?;
        append_named(alloc, number, node.groups.as_slice(), &mut groups)?;
    }
    Ok(groups)
}

fn append_named(
    alloc: Global,
    node: usize,
    drafts: &[GroupDraft],
    groups: &mut Vec<CallbackGroup>,
) -> Result<(), Memory>
    ensures { OnOk result (groups.new.items ≡ groups.old.items ++ map (named_group node) drafts.now) }
{
    for draft in drafts {
        let name = WordText::copy_of(alloc, draft.name.as_str())?;
        groups.push(CallbackGroup {
            node,
            name: Some(name),
            exclusive: draft.exclusive,
        })?;
    }
    Ok(())
}
