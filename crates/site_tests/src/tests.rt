// What is run of the tables, the plain program, the machine and the console, a file each.

mod accepted;
mod console;
mod keys;
mod machine;
mod plain;
mod records;
mod rise;
mod site;
mod tables;
