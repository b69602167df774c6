//! Tests of whole command lines, on a machine in memory: which files are read, what options do, the
//! commands of tables, help, mistakes, devices that fail, and long documents.
#![tactic(auto)]

#[cfg(test)]
mod command_lines;
#[cfg(test)]
mod devices;
#[cfg(test)]
mod failing_once;
#[cfg(test)]
mod help_texts;
#[cfg(test)]
mod limit_options;
#[cfg(test)]
mod long_documents;
#[cfg(test)]
mod machine;
#[cfg(test)]
mod messages;
#[cfg(test)]
mod mistake_texts;
#[cfg(test)]
mod pages;
#[cfg(test)]
mod registers;
#[cfg(test)]
mod starts;
#[cfg(test)]
mod table_commands;
