//! How large what C shares is: `embedding/nardsill.c` states the same numbers, and where the last field of
//! each lies.

use crate::answer::{CallAnswer, Given};
use crate::ask::{Ask, MakeAsk, OpenAsk, Token};
use crate::checking::{CheckAsk, Checked};
use crate::facts::Facts;
use crate::opening::OpenFiles;

const _: () = prove!(size_of::<Ask>() == 160);

const _: () = prove!(size_of::<OpenAsk>() == 8);

const _: () = prove!(size_of::<OpenFiles>() == 8);

const _: () = prove!(size_of::<MakeAsk>() == 20);

const _: () = prove!(size_of::<CallAnswer>() == 64);

const _: () = prove!(size_of::<Token>() == 16);

const _: () = prove!(size_of::<Given>() == 80);

const _: () = prove!(size_of::<Facts>() == 28);

const _: () = prove!(size_of::<CheckAsk>() == 8);

const _: () = prove!(size_of::<Checked>() == 48);
