mod call;
mod disc_call;
