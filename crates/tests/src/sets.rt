//! Tests of `goods_set`, on worked rows.

mod bundles;
mod masks;
