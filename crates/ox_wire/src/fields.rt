// The bytes of messages (docs/FORMATS.md): a form for each type.
mod append;
mod body;
mod followers;
mod message;
mod outcome;
mod swap;
