// Messages as literal bytes.
mod form_table;
mod forms;
