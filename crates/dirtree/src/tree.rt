//! The tree of directories.
ghost use Rattle.std.specs.Prelude.{◌≡◌, ℕ, ◌+◌, ◌<◌, ◌≤◌, ◌∷◌, [], Some, None, Ok, Err, true, OnSome, length};
ghost use Rattle.std.specs.Prelude.{map, IfOk, IfErr, IfSome, OnErr, OnOk, IsTrue, ◌↔◌, IsOkUnless};
ghost use Rattle.std.specs.Option.{option_map};

use crate::name::{Name, is_name};
use crate::name_key::NameKey;
use crate::node::{
    CHAINS, Node, chain, child_in_chain, count_child, discount_child, place_in_chain, set_next,
};
use crate::tree_error::TreeError;
use mds_types::Dir;
use std::alloc::{AllocError, Global};
use std::hash::FoldHasher;
use std::marker::Model;

/// A directory of the tree, by the numbers of it and its parent.
#[derive(Clone, Copy, Debug, PartialEq, Eq)]
pub struct TreeRow {
    pub dir: Dir,
    pub parent: Dir,
    pub inodes: u32,
}

/// Directories under numbers that rise by one and are never given again.
#[derive(Drop)]
pub struct Tree {
    limit: u32,
    hasher: FoldHasher,
    nodes: Vec<Option<Node>>,
    heads: Vec<u16>,
}

impl Model for Tree {
    ghost use Rattle.dirtree.specs.Tree.{Directories};
    ghost use Rattle.dirtree.specs.Keeps.{entries_of, IsSound};

    ghost Value = { Directories };

    ghost view = { λ tree. record { limit = tree.limit; entries = entries_of tree.nodes.items } };

    ghost invariant = { λ tree. IsSound tree.limit tree.hasher tree.nodes.items tree.heads.items };
}

impl Tree {
    ghost use Rattle.dirtree.specs.Keeps.{children_of, entry_of};
    ghost use Rattle.dirtree.specs.Name.{is_name};
    ghost use Rattle.dirtree.specs.Path.{walk};
    ghost use Rattle.dirtree.specs.Tree.{child_of, entry_at, has_child, is_there, IsTree, make_refusal};
    ghost use Rattle.dirtree.specs.Tree.{remove_refusal, root, row_at, rows_from, with_child, without};

    /// The tree that has only the root, and gives at most `limit` numbers.
    pub fn new(alloc: Global, limit: u32) -> Result<Tree, AllocError>
        requires low { 1 ≤ limit }
        requires high { limit ≤ 65536 }
        ensures { IfOk result (λ tree. tree ≡ record { limit = limit; entries = Some root ∷ [] }) }
    {
        Tree::keyed(alloc, limit, NameKey::default())
    }

    /// The same, where the key picks the hash by which names are found.
    pub fn keyed(alloc: Global, limit: u32, key: NameKey) -> Result<Tree, AllocError>
        requires low { 1 ≤ limit }
        requires high { limit ≤ 65536 }
        ensures { IfOk result (λ tree. tree ≡ record { limit = limit; entries = Some root ∷ [] }) }
    {
        let mut nodes = Vec::new(alloc);
        nodes.push(Some(Node {
            name: Name::empty(),
            parent: 0,
            inodes: 1,
            children: 0,
            next: 0,
        }))?;
        Ok(Tree {
            limit,
            hasher: key.hasher(),
            nodes,
            heads: vec![in alloc; 0; CHAINS]?,
        })
    }

    /// How many numbers were given, those of removed directories too.
    pub fn numbers(&self) -> u32
        ensures value { result ≡ length self.now.entries }
        ensures some { 1 ≤ result }
        ensures within { result ≤ self.now.limit }
        ensures small { self.now.limit ≤ 65536 }
        ensures tree { IsTree self.now.entries }
    {
        self.nodes.len() as u32
    }

    /// How many numbers it gives at most.
    pub fn limit(&self) -> u32
        ensures { result ≡ self.now.limit }
    {
        self.limit
    }

    pub(crate) fn node(&self, dir: Dir) -> Option<&Node>
        ensures value { option_map (λ n. entry_of n.now) result ≡ entry_at self.now.entries dir }
        ensures tree { IsTree self.now.entries }
        ensures above { IfSome result (λ n. 0 < dir → n.now.parent < dir) }
        ensures parent { IfSome result (λ n. is_there self.now.entries n.now.parent ≡ true) }
        ensures children { IfSome result (λ n. n.now.children ≡ children_of self.now.entries dir) }
        ensures below { OnSome result (dir < self.now.limit) }
    {
        let _ = &self.limit;
        match self.nodes.get(dir.number() as usize) {
            Some(Some(node)) => Some(node),
            _ => None,
        }
    }

    /// Whether there is such a directory.
    pub fn contains(&self, dir: Dir) -> bool
        ensures there { result ≡ is_there self.now.entries dir }
        ensures below { IsTrue result → dir < self.now.limit }
    {
        self.node(dir).is_some()
    }

    /// The directory with its parent and its inodes, if it is there.
    pub fn row(&self, dir: Dir) -> Option<TreeRow>
        ensures row { result ≡ row_at self.now.entries dir }
        ensures tree { IsTree self.now.entries }
        ensures below { OnSome result (dir < self.now.limit) }
    {
        match self.node(dir) {
            Some(node) => Some(TreeRow {
                dir,
                parent: Dir::new(node.parent),
                inodes: node.inodes,
            }),
            None => None,
        }
    }

    /// The child of this name.
    pub(crate) fn child(&self, parent: Dir, name: &str) -> Option<Dir>
        ensures child { result ≡ child_of self.now.entries parent name.now }
        ensures below { IfSome result (λ child. child < self.now.limit) }
        ensures there { IfSome result (λ child. is_there self.now.entries child ≡ true) }
        ensures named { OnSome result (is_name name.now ≡ true) }
    {
        let _ = &self.limit;
        match child_in_chain(&self.nodes, &self.heads, self.hasher, parent.number(), name) {
            Some(child) => Some(Dir::new(child)),
            None => None,
        }
    }

    /// What `make` would refuse, apart from a lack of memory.
    pub fn can_make(&self, parent: Dir, name: &str) -> Result<(), TreeError>
        ensures refused { IfErr result (λ e. make_refusal self.now parent name.now ≡ Some e) }
        ensures allowed { OnOk result (make_refusal self.now parent name.now ≡ None) }
    {
        if !self.contains(parent) {
            return Err(TreeError::NoDir);
        }
        if !is_name(name) {
            return Err(TreeError::BadName);
        }
        if self.child(parent, name).is_some() {
            return Err(TreeError::Exists);
        }
        if self.nodes.len() >= self.limit as usize {
            return Err(TreeError::TreeFull);
        }
        Ok(())
    }

    /// Makes a directory with the next number.
    pub fn make(
        &mut self,
        alloc: Global,
        parent: Dir,
        name: &str,
        inodes: u32,
    ) -> Result<Dir, TreeError>
        ensures made { OnOk result (self.new ≡ with_child self.old parent name.now inodes) }
        ensures number { IfOk result (λ dir. dir ≡ length self.old.entries) }
        ensures below { IfOk result (λ dir. dir < self.old.limit) }
        ensures unchanged { OnErr result (self.new ≡ self.old) }
        ensures refused { (e : TreeError) → make_refusal self.old parent name.now ≡ Some e → result ≡ Err e }
        ensures memory { make_refusal self.old parent name.now ≡ None → IsOkUnless result TreeError.Memory }
    {
        self.can_make(parent, name)?;
        Ok(self.add(alloc, parent, name, inodes)?)
    }

    /// Makes a directory that `can_make` allows, with the next number. Its growths come before its first change.
    pub fn add(
        &mut self,
        alloc: Global,
        parent: Dir,
        name: &str,
        inodes: u32,
    ) -> Result<Dir, AllocError>
        requires { make_refusal self.old parent name.now ≡ None }
        ensures made { OnOk result (self.new ≡ with_child self.old parent name.now inodes) }
        ensures number { IfOk result (λ dir. dir ≡ length self.old.entries) }
        ensures below { IfOk result (λ dir. dir < self.old.limit) }
        ensures unchanged { OnErr result (self.new ≡ self.old) }
    {
        let number = self.nodes.len() as u32;
        let chain = chain(self.hasher, parent.number(), name);
        let node = Node {
            name: Name::new(alloc, name)?,
            parent: parent.number(),
            inodes,
            children: 0,
            next: self.heads[chain],
        };
        self.nodes.reserve(1)?;
        count_child(&mut self.nodes, parent.number());
        self.nodes.push_reserved(Some(node));
        self.heads[chain] = number as u16;
        Ok(Dir::new(number))
    }

    fn has_child(&self, dir: Dir) -> bool
        ensures { result ≡ has_child self.now.entries dir }
    {
        let Some(node) = self.node(dir) else {
            return false;
        };
        node.children > 0
    }

    /// What `remove` would refuse.
    pub fn can_remove(&self, dir: Dir) -> Result<(), TreeError>
        ensures refused { IfErr result (λ e. remove_refusal self.now dir ≡ Some e) }
        ensures allowed { OnOk result (remove_refusal self.now dir ≡ None) }
    {
        if dir == Dir::ROOT {
            return Err(TreeError::IsRoot);
        }
        if !self.contains(dir) {
            return Err(TreeError::NoDir);
        }
        if self.has_child(dir) {
            return Err(TreeError::NotEmpty);
        }
        Ok(())
    }

    /// Removes a directory that has no child. It takes no memory, and the number is never given again.
    pub fn remove(&mut self, dir: Dir) -> Result<(), TreeError>
        ensures removed { OnOk result (self.new ≡ without self.old dir) }
        ensures below { OnOk result (dir < self.old.limit) }
        ensures unchanged { OnErr result (self.new ≡ self.old) }
        ensures refused { IfErr result (λ e. remove_refusal self.old dir ≡ Some e) }
        ensures allowed { OnOk result (remove_refusal self.old dir ≡ None) }
    {
        self.can_remove(dir)?;
        let (chain, before) = place_in_chain(&self.nodes, &self.heads, self.hasher, dir.number());
        if let Some(node) = self.nodes[dir.number() as usize].take() {
            discount_child(&mut self.nodes, node.parent);
            if before == 0 {
                self.heads[chain] = node.next;
            } else {
                set_next(&mut self.nodes, before, node.next);
            }
        }
        Ok(())
    }

    /// The directories, by rising numbers.
    pub fn rows(&self, alloc: Global) -> Result<Vec<TreeRow>, AllocError>
        ensures { IfOk result (λ rows. rows.items ≡ rows_from 0 self.now.entries) }
    {
        let mut rows = Vec::new(alloc);
        for (number, place) in self.nodes.iter().enumerate() {
            if let Some(node) = place {
                rows.push(TreeRow {
                    dir: Dir::new(number as u32),
                    parent: Dir::new(node.parent),
                    inodes: node.inodes,
                })?;
            }
        }
        Ok(rows)
    }
}
