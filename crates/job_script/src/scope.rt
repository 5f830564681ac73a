//! Statements, names and files.
ghost use Rattle.std.specs.Prelude.{◌≡◌, Ok, OnOk, IfErr, not, nat_eq, length};
ghost use Rattle.job_script.specs.Names.{node_called};
ghost use Rattle.job_script.specs.Scopes.{nothing_known, is_there, begun, declared, with_file, defined, with_input, saved};
ghost use Rattle.job_script.specs.Follows.{RefusedAs};

use crate::asked::{Fault, Refusal, Why};
use crate::named::{Named, find_node};
use array_expr::NodeId;
use std::alloc::{AllocError, Global};
use std::marker::Model;
use std::mem;

/// The most statements.
const STATEMENTS: u32 = 1024;

/// The names that stand for nodes, the files of inputs and of saves, and the name and the file of the statement that is read.
#[derive(Drop)]
pub(crate) struct Scope {
    alloc: Global,
    names: Vec<Named>,
    inputs: Vec<Named>,
    saves: Vec<Named>,
    statements: u32,
    name: Vec<u8>,
    file: Vec<u8>,
}

impl Model for Scope {
    ghost use Rattle.job_script.specs.Scopes.{Scoped};

    ghost Value = { Scoped };

    ghost view = { λ s. record { names = s.names.items; inputs = s.inputs.items; saves = s.saves.items; statements = s.statements; name = s.name.items; file = s.file.items } };
}

fn is_listed(list: &[Named], name: &[u8]) -> bool
    ensures { result ≡ is_there list.now name.now }
{
    find_node(list, name).is_some()
}

impl Scope {
    pub(crate) fn new(alloc: Global) -> Self
        ensures { result ≡ nothing_known }
    {
        Scope {
            alloc,
            names: Vec::new(alloc),
            inputs: Vec::new(alloc),
            saves: Vec::new(alloc),
            statements: 0,
            name: Vec::new(alloc),
            file: Vec::new(alloc),
        }
    }

    pub(crate) fn begin(&mut self, at: usize) -> Result<(), Fault>
        ensures ok { OnOk result ((begun at self.old) ≡ Ok self.new) }
        ensures err { IfErr result (λ e. RefusedAs e (begun at self.old) (self.new ≡ self.old)) }
    {
        if self.statements >= STATEMENTS {
            return Err(Fault::Refused(Refusal {
                at,
                why: Why::Statements,
            }));
        }
        self.statements += 1;
        Ok(())
    }

    pub(crate) fn declare(&mut self, name: &[u8], at: usize) -> Result<(), Fault>
        ensures ok { OnOk result ((declared name.now at self.old) ≡ Ok self.new) }
        ensures err { IfErr result (λ e. RefusedAs e (declared name.now at self.old) (self.new ≡ self.old)) }
    {
        if is_listed(self.names.as_slice(), name) {
            return Err(Fault::Refused(Refusal {
                at,
                why: Why::Repeated,
            }));
        }
        self.name = Vec::from_slice(self.alloc, name)?;
        Ok(())
    }

    pub(crate) fn set_file(&mut self, file: &[u8], at: usize) -> Result<(), Fault>
        ensures ok { OnOk result ((with_file file.now at self.old) ≡ Ok self.new) }
        ensures err { IfErr result (λ e. RefusedAs e (with_file file.now at self.old) (self.new ≡ self.old)) }
    {
        if is_listed(self.saves.as_slice(), file) {
            return Err(Fault::Refused(Refusal {
                at,
                why: Why::Repeated,
            }));
        }
        self.file = Vec::from_slice(self.alloc, file)?;
        Ok(())
    }

    pub(crate) fn define(&mut self, node: NodeId) -> Result<(), AllocError>
        ensures { OnOk result (self.new ≡ defined node self.old) }
    {
        let name = Vec::from_slice(self.alloc, self.name.as_slice())?;
        self.names.push(Named::new(name, node))?;
        Ok(())
    }

    pub(crate) fn add_input(&mut self, node: NodeId) -> Result<(), AllocError>
        ensures { OnOk result (self.new ≡ with_input node self.old) }
    {
        self.define(node)?;
        let file = mem::replace(&mut self.file, Vec::new(self.alloc));
        self.inputs.push(Named::new(file, node))?;
        Ok(())
    }

    pub(crate) fn find(&self, name: &[u8]) -> Option<NodeId>
        ensures { result ≡ node_called self.now.names name.now }
    {
        find_node(self.names.as_slice(), name)
    }

    pub(crate) fn save(&mut self, file: &[u8], node: NodeId, at: usize) -> Result<(), Fault>
        ensures ok { OnOk result ((saved file.now node at self.old) ≡ Ok self.new) }
        ensures err { IfErr result (λ e. RefusedAs e (saved file.now node at self.old) (self.new ≡ self.old)) }
    {
        let is_saved = is_listed(self.saves.as_slice(), file);
        let is_read = is_listed(self.inputs.as_slice(), file);
        if is_saved | is_read {
            return Err(Fault::Refused(Refusal {
                at,
                why: Why::Repeated,
            }));
        }
        let name = Vec::from_slice(self.alloc, file)?;
        self.saves.push(Named::new(name, node))?;
        Ok(())
    }

    /// The files that are read and those that are saved.
    pub(crate) fn into_files(self) -> (Vec<Named>, Vec<Named>)
        ensures inputs { result.0.items ≡ self.inputs }
        ensures saves { result.1.items ≡ self.saves }
    {
        let Scope {
            alloc: _,
            names: _,
            inputs,
            saves,
            statements: _,
            name: _,
            file: _,
        } = self;
        (inputs, saves)
    }

    pub(crate) fn has_saves(&self) -> bool
        ensures { result ≡ not (nat_eq (length self.now.saves) 0) }
    {
        self.saves.len() != 0
    }
}
