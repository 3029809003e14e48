//! That the calls succeed where there is memory. The plain reader is run beside the inputs of `stow_resp`.
mod values;
