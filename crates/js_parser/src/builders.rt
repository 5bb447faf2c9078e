//! Nodes whose children are read. Functions of their own, so that the parts of no node lie on the
//! stack while its children are read.

use crate::expected::Expected;
use crate::grammar::Grammar;
use crate::nodes::{Children, Parts, ReadNode};
use crate::reader::Reader;
use js_forms::Form;
use js_lexer::Refusal;
use std::alloc::Global;
use tree_core::Units;

impl<F: Fn(Global, &mut Reader<'_>, u32, Expected) -> Result<ReadNode, Refusal>> Grammar<F> {
    /// A node whose text is its last scalar.
    #[inline(never)]
    pub fn over_text(
        &self,
        reader: &mut Reader<'_>,
        form: Form,
        start: u32,
        text: Units,
    ) -> Result<ReadNode, Refusal> {
        let mut read = Parts::new(self.alloc, form)?;
        read.push_text(self.alloc, text)?;
        self.finish(reader, form, start, read)
    }

    #[inline(never)]
    pub fn over_one(
        &self,
        reader: &mut Reader<'_>,
        form: Form,
        start: u32,
        child: ReadNode,
    ) -> Result<ReadNode, Refusal> {
        let mut read = Parts::new(self.alloc, form)?;
        read.push_child(child)?;
        self.finish(reader, form, start, read)
    }

    #[inline(never)]
    pub fn over_two(
        &self,
        reader: &mut Reader<'_>,
        form: Form,
        start: u32,
        first: Option<ReadNode>,
        second: Option<ReadNode>,
    ) -> Result<ReadNode, Refusal> {
        let mut read = Parts::new(self.alloc, form)?;
        read.push_maybe(first)?;
        read.push_maybe(second)?;
        self.finish(reader, form, start, read)
    }

    #[inline(never)]
    pub fn over_list(
        &self,
        reader: &mut Reader<'_>,
        form: Form,
        start: u32,
        list: Children,
    ) -> Result<ReadNode, Refusal> {
        let mut read = Parts::new(self.alloc, form)?;
        read.push_list(list)?;
        self.finish(reader, form, start, read)
    }

    #[inline(never)]
    pub fn over_lists(
        &self,
        reader: &mut Reader<'_>,
        form: Form,
        start: u32,
        first: Children,
        second: Children,
    ) -> Result<ReadNode, Refusal> {
        let mut read = Parts::new(self.alloc, form)?;
        read.push_list(first)?;
        read.push_list(second)?;
        self.finish(reader, form, start, read)
    }

    /// A node over a child and a list behind it.
    #[inline(never)]
    pub fn over_one_and_list(
        &self,
        reader: &mut Reader<'_>,
        form: Form,
        start: u32,
        child: ReadNode,
        list: Children,
    ) -> Result<ReadNode, Refusal> {
        let mut read = Parts::new(self.alloc, form)?;
        read.push_child(child)?;
        read.push_list(list)?;
        self.finish(reader, form, start, read)
    }

    /// A node over a list between two children that may be absent.
    #[inline(never)]
    pub fn over_list_between(
        &self,
        reader: &mut Reader<'_>,
        form: Form,
        start: u32,
        first: Option<ReadNode>,
        list: Children,
        last: Option<ReadNode>,
    ) -> Result<ReadNode, Refusal> {
        let mut read = Parts::new(self.alloc, form)?;
        read.push_maybe(first)?;
        read.push_list(list)?;
        read.push_maybe(last)?;
        self.finish(reader, form, start, read)
    }
}
