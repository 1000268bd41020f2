//! The tables by their names.

use std::alloc::{AllocError, Global};
use test_table::Judge;

/// The table that is read.
#[derive(Drop)]
enum Table {
    None,
    Base(base_rows::Table),
    Volume(volume_rows::Table),
    Page(page_rows::Table),
    Block(block_rows::Table),
    Target(target_rows::Table),
    Rig(rig_rows::Table),
    Adapter(adapter_rows::Table),
    Text(text_rows::Table),
    Script(script_rows::Table),
    Stack(stack_rows::Table),
    Call(call_rows::Table),
    Lab(lab_rows::Table),
}

/// The table of the program's top call, where there is a folder for its file.
fn calls(rt: HostRuntime) -> Table {
    match call_rows::Table::new(rt) {
        Ok(table) => Table::Call(table),
        Err(_) => Table::None,
    }
}

/// The table of this name, before its first line.
fn begun(rt: HostRuntime, name: &str) -> Result<Table, AllocError> {
    let alloc = rt.alloc();
    Ok(match name {
        "base" => Table::Base(base_rows::Table::new(rt)),
        "volume" => Table::Volume(volume_rows::Table::new(alloc)),
        "page" => Table::Page(page_rows::Table::new(alloc)?),
        "block" => Table::Block(block_rows::Table::new()),
        "target" => Table::Target(target_rows::Table::new(alloc)),
        "rig" => Table::Rig(rig_rows::Table::new(rt)),
        "adapter" => Table::Adapter(adapter_rows::Table::new()),
        "text" => Table::Text(text_rows::Table::new(alloc)),
        "script" => Table::Script(script_rows::Table::new(alloc)),
        "stack" => Table::Stack(stack_rows::Table::new(alloc)),
        "call" => calls(rt),
        "lab" => Table::Lab(lab_rows::Table::new(alloc)),
        _ => Table::None,
    })
}

/// The table that is read, and what new ones are made with.
#[derive(Drop)]
pub(crate) struct Tables {
    rt: HostRuntime,
    table: Table,
}

impl Tables {
    /// Before the first table.
    pub(crate) fn new(rt: HostRuntime) -> Tables {
        Tables {
            rt,
            table: Table::None,
        }
    }

    /// Begins the table of this name. Answers false where there is none.
    fn begin(&mut self, name: &str) -> Result<bool, AllocError> {
        self.clear();
        self.table = begun(self.rt, name)?;
        Ok(!matches!(self.table, Table::None))
    }

    /// Takes away what the table left outside.
    pub(crate) fn clear(&self) {
        if let Table::Call(table) = &self.table {
            table.clear();
        }
    }
}

impl Judge for Tables {
    fn set(&mut self, alloc: Global, line: &str) -> Result<bool, AllocError> {
        if let Some(name) = line.strip_prefix("== ") {
            return self.begin(name);
        }
        match &mut self.table {
            Table::None => Ok(false),
            Table::Base(table) => table.set(alloc, line),
            Table::Volume(table) => table.set(alloc, line),
            Table::Page(table) => table.set(alloc, line),
            Table::Block(table) => table.set(alloc, line),
            Table::Target(table) => table.set(alloc, line),
            Table::Rig(table) => table.set(alloc, line),
            Table::Adapter(table) => table.set(alloc, line),
            Table::Text(table) => table.set(alloc, line),
            Table::Script(table) => table.set(alloc, line),
            Table::Stack(table) => table.set(alloc, line),
            Table::Call(table) => table.set(alloc, line),
            Table::Lab(table) => table.set(alloc, line),
        }
    }

    fn answer(&mut self, alloc: Global, call: &str) -> Result<String, AllocError> {
        match &mut self.table {
            Table::None => String::from_str(alloc, "no table"),
            Table::Base(table) => table.answer(alloc, call),
            Table::Volume(table) => table.answer(alloc, call),
            Table::Page(table) => table.answer(alloc, call),
            Table::Block(table) => table.answer(alloc, call),
            Table::Target(table) => table.answer(alloc, call),
            Table::Rig(table) => table.answer(alloc, call),
            Table::Adapter(table) => table.answer(alloc, call),
            Table::Text(table) => table.answer(alloc, call),
            Table::Script(table) => table.answer(alloc, call),
            Table::Stack(table) => table.answer(alloc, call),
            Table::Call(table) => table.answer(alloc, call),
            Table::Lab(table) => table.answer(alloc, call),
        }
    }
}
