//! That a screen and its views cross threads.
use crate::screen::Screen;
use crate::view::View;
use std::sync::Wait;

/// That values of the type may move to another thread: asked for, and nothing else.
fn moves<T: Send>() {}

/// A screen and its views move between threads. It does nothing: that it is proved says so.
pub fn display_crosses_threads<R: Wait + Sync + 'static>() {
    moves::<Screen<'static, R>>();
    moves::<View>();
}
