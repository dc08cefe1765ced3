//! The functions of a shell.

ghost use Rattle.std.specs.Prelude.{◌≡◌, ◌++◌, codes, map, string_bytes, IfOk, IfSome};
ghost use Rattle.rc_model.specs.Code.Layout.{code};
ghost use Rattle.rc_model.specs.Handed.Image.{entry, image};
ghost use Rattle.rc_model.specs.Handed.Proper.{IsProperTree};
ghost use Rattle.rc_text.specs.Texts.{text_bytes};
ghost use Rattle.rc_tree.specs.View.{cmd_tree};
ghost use Rattle.rc_code.specs.Views.{code_of};
ghost use Rattle.rc_scope.specs.FunctionBodies.{IsImage, body_tree, image_tree};
ghost use Rattle.rc_scope.specs.KeptEntries.{kept_text};
ghost use Rattle.rc_scope.specs.Bodies.{definitions_of, functions_of};

use crate::function_bodies::Body;
use crate::kept_entries::KeptEntry;
use rc_code::{Code, compile};
use rc_text::Text;
use rc_tree::Cmd;
use std::alloc::{AllocError, Global};
use std::collections::BTreeMap;
use std::marker::Model;
use std::rc::Rc;

/// A function of a shell.
pub struct Function {
    body: Body,
    /// The code of the body, once it has been needed.
    compiled: Option<Code>,
    /// Its entry in an environment, once a launch has handed over a body that is a tree.
    kept: Option<KeptEntry>,
}

impl Drop for Function {
    fn drop(self) {
        let Function {
            body: _,
            compiled: _,
            kept: _,
        } = self;
    }
}

/// A function with its name.
#[derive(Clone, Copy)]
pub struct Definition<'a> {
    pub name: &'a str,
    pub function: &'a Function,
}

impl Model for Function {
    ghost use Rattle.std.specs.Prelude.{◌≡◌, IfSome};
    ghost use Rattle.std.specs.Coded.{codes};
    ghost use Rattle.rc_model.specs.Code.Layout as layout;
    ghost use Rattle.rc_model.specs.Handed.Image as handed;
    ghost use Rattle.rc_tree.specs.contracts.types.Cmd as e;
    ghost use Rattle.rc_code.specs.Views.{code_of};
    ghost use Rattle.rc_scope.specs.FunctionBodies.{IsBody, body_tree};
    ghost use Rattle.rc_scope.specs.KeptEntries.{kept_text};
    ghost use Rattle.rc_scope.specs.declared.function_bodies.Body.{Body};

    ghost Value = { Body };

    ghost coded = { Prim.hlevel (codes, e.the_row.coded) };

    ghost view = { λ f. f.body };

    ghost invariant = { λ f. IsBody f.body
        × IfSome f.compiled (λ done. code_of done ≡ layout.code (body_tree f.body))
        × IfSome f.kept (λ kept. kept_text kept ≡ handed.image (body_tree f.body)) };
}

impl Clone for Function {
    ghost use Rattle.std.specs.Prelude.{◌≡◌};
    ghost use Rattle.rc_scope.specs.FunctionBodies.{body_tree};

    ghost is_clone = { λ f g. body_tree g ≡ body_tree f };

    /// The body and its code are shared. The entry of a tree is not kept.
    fn clone(&self) -> Result<Function, AllocError> {
        let compiled = match &self.compiled {
            Some(code) => Some(code.clone()?),
            None => None,
        };
        Ok(Function {
            body: self.body.copy()?,
            compiled,
            kept: None,
        })
    }
}

impl Function {
    /// A function of which nothing but the body is kept yet.
    pub(crate) fn new(body: Rc<Cmd>) -> Function
        ensures { body_tree result ≡ cmd_tree body.value }
    {
        Function {
            body: Body::Tree(body),
            compiled: None,
            kept: None,
        }
    }

    /// A function whose body is in the image of an entry.
    pub(crate) fn of_image(kept: KeptEntry) -> Function
        requires { IsImage kept }
        ensures { body_tree result ≡ image_tree (kept_text kept) }
    {
        Function {
            body: Body::Image(kept),
            compiled: None,
            kept: None,
        }
    }

    /// The body, which is shared, or read from its image.
    pub fn body(&self, alloc: Global) -> Result<Rc<Cmd>, AllocError>
        ensures { IfOk result (λ body. cmd_tree body.value ≡ body_tree self.now) }
    {
        self.body.tree(alloc)
    }

    /// The code of the body, which is compiled when it is first needed. A tree that was made for that is dropped.
    pub(crate) fn code(&mut self, alloc: Global) -> Result<Code, AllocError>
        requires { IsProperTree (body_tree self.old) }
        ensures code { IfOk result (λ done. code_of done ≡ code (body_tree self.old)) }
        ensures same { self.new ≡ self.old }
    {
        if let Some(code) = &self.compiled {
            return code.clone();
        }
        let body = self.body.tree(alloc)?;
        let code = compile(alloc, &body)?;
        let shared = code.clone()?;
        self.compiled = Some(code);
        Ok(shared)
    }

    /// The entry of a function of this name that has this body, if it is kept.
    pub fn entry(&self, name: &str) -> Option<&Text>
        ensures { IfSome result
            (λ kept. text_bytes kept.now ≡ entry (codes "fn#" ++ name.now, image (body_tree self.now))) }
    {
        match (&self.body, &self.kept) {
            (Body::Image(kept), _) | (Body::Tree(_), Some(kept)) => kept.named("fn#", name),
            (Body::Tree(_), None) => None,
        }
    }

    /// Whether its entry isn't kept.
    fn is_unkept(&self) -> bool {
        matches!(self.body, Body::Tree(_)) && self.kept.is_none()
    }

    /// Keeps an entry that an environment has for the function.
    pub(crate) fn keep(&mut self, kept: KeptEntry)
        requires { kept_text kept ≡ image (body_tree self.old) }
        ensures { self.new ≡ self.old }
    {
        self.kept = Some(kept);
    }
}

/// The names of functions, in byte order.
#[tactic(auto, using(crate::proofs::Bodies::names))]
pub(crate) fn names(
    alloc: Global,
    functions: &BTreeMap<String, Function>,
) -> Result<Vec<String>, AllocError>
    ensures { IfOk result (λ names. map string_bytes names.items
        ≡ map (λ f. f.0) (functions_of functions.now.entries)) }
{
    let mut names = Vec::new(alloc);
    for (name, _) in functions {
        names.push(name.clone()?)?;
    }
    Ok(names)
}

/// Each function with its name, in byte order of the names.
pub(crate) fn definitions(
    alloc: Global,
    functions: &BTreeMap<String, Function>,
) -> Result<Vec<Definition<'_>>, AllocError>
    ensures { IfOk result (λ all. definitions_of all.items ≡ functions_of functions.now.entries) }
{
    let mut all = Vec::with_capacity(alloc, functions.len())?;
    for (name, function) in functions {
        all.push(Definition { name, function })?;
    }
    Ok(all)
}

/// The names of the functions whose entry isn't kept.
pub(crate) fn unkept(
    alloc: Global,
    functions: &BTreeMap<String, Function>,
) -> Result<Vec<String>, AllocError> {
    let mut names = Vec::new(alloc);
    for (name, function) in functions {
        if function.is_unkept() {
            names.push(name.clone()?)?;
        }
    }
    Ok(names)
}
