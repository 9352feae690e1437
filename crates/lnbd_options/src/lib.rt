//! Option requests put, and option replies and requests read (NBD protocol, "Option haggling"). Nothing
//! is read past the slice that is handed in. Which replies an option may have, and what replies agree
//! on, is judged above.
#![tactic(auto)]

mod asked;
mod fault;
mod head;
mod law;
mod put;
mod reply;
mod text;

pub use asked::{Request, read_asked};
pub use fault::OptionFault;
pub use head::{OptionHead, Read64, read_head};
pub use law::{head_read_again, requests_read_again};
pub use put::{put_info, put_meta, put_option};
pub use reply::{Info, read_context, read_info, read_server};
