//! A client's state beside the set of its dirty groups: those whose value changed since the card last took them.

ghost use Rattle.std.specs.Prelude.{◌≡◌, ◌≤◌, ◌==◌, ◌&&◌, ◌||◌, not, true, length};
ghost use Rattle.dri_base.specs.States.{default_state, with_setting};
ghost use Rattle.dri_model.specs.Groups.{all_groups, no_groups, with_bound, dirtied, depth_word, flag_word};
ghost use Rattle.dri_model.specs.Words.{emitted_words, IsBoundInRange, IsScissorInRange};
ghost use Rattle.dri_context.specs.Contexts.{IsSettingInRange};

use crate::emit::{EmitWords, emit};
use crate::groups::Groups;
use crate::values::{
    blend_word, depth_word, flag_word, mode_word, same_number, same_rect, shade_word, wrap_word,
};
use dri_base::{BoundTexture, Setting, State};
use std::marker::Model;

/// A client's drawing state with its dirty groups. Contracts see both.
#[derive(Drop)]
pub struct ContextState {
    state: State,
    dirty: Groups,
}

impl Model for ContextState {
    ghost use Rattle.dri_context.specs.Contexts.{Context};
    ghost use Rattle.dri_model.specs.Words.{IsScissorInRange};

    ghost Value = { Context };

    ghost view = { λ c. record { state = c.state; dirty = c.dirty } };

    ghost invariant = { λ c. IsScissorInRange c.state.scissor };
}

// Whether both states have one depth function and one depth write.
fn same_depth(old: &State, new: &State) -> bool
    ensures { result ≡ ((depth_word old.now.depth_func == depth_word new.now.depth_func) && (flag_word old.now.depth_write == flag_word new.now.depth_write)) }
{
    depth_word(old.depth_func) == depth_word(new.depth_func)
        && flag_word(old.depth_write) == flag_word(new.depth_write)
}

// Whether a group is dirty after a setting: it was, or its value differs.
fn is_dirty(was: bool, same: bool) -> bool
    ensures { result ≡ (was || not same) }
{
    was || !same
}

// The dirty groups, and those whose value differs.
fn dirtied(old: &State, new: &State, dirty: Groups) -> Groups
    ensures { result ≡ dirtied old.now new.now dirty }
{
    let shade = shade_word(old.shade) == shade_word(new.shade);
    let blend = blend_word(old.blend) == blend_word(new.blend);
    let mode = mode_word(old.tex_mode) == mode_word(new.tex_mode);
    let wrap = wrap_word(old.wrap) == wrap_word(new.wrap);
    Groups {
        shade: is_dirty(dirty.shade, shade),
        depth: is_dirty(dirty.depth, same_depth(old, new)),
        blend: is_dirty(dirty.blend, blend),
        mode: is_dirty(dirty.mode, mode),
        wrap: is_dirty(dirty.wrap, wrap),
        bound: is_dirty(dirty.bound, same_number(old.bound, new.bound)),
        scissor: is_dirty(dirty.scissor, same_rect(old.scissor, new.scissor)),
    }
}

impl ContextState {
    /// The state that every script begins with, all of it dirty.
    pub fn new() -> ContextState
        ensures state { result.state ≡ default_state }
        ensures dirty { result.dirty ≡ all_groups }
    {
        ContextState {
            state: State::initial(),
            dirty: Groups::all(),
        }
    }

    /// The state.
    pub fn state(&self) -> State
        ensures { result ≡ self.now.state }
    {
        self.state
    }

    /// The dirty groups.
    pub fn dirty(&self) -> Groups
        ensures { result ≡ self.now.dirty }
    {
        self.dirty
    }

    /// Makes a setting. The groups whose value differs become dirty, and no other. A scissor's numbers are at most
    /// 2,048.
    pub fn set(&mut self, setting: &Setting)
        requires { IsSettingInRange setting.now }
        ensures state { self.new.state ≡ with_setting setting.now self.old.state }
        ensures dirty { self.new.dirty ≡ dirtied self.old.state (with_setting setting.now self.old.state) self.old.dirty }
    {
        let old = self.state;
        self.state.set(setting);
        self.dirty = dirtied(&old, &self.state, self.dirty);
    }

    /// Makes all groups dirty.
    pub fn dirty_all(&mut self)
        ensures state { self.new.state ≡ self.old.state }
        ensures dirty { self.new.dirty ≡ all_groups }
    {
        self.dirty = Groups::all();
    }

    /// Makes the bound texture's group dirty.
    pub fn dirty_bound(&mut self)
        ensures state { self.new.state ≡ self.old.state }
        ensures dirty { self.new.dirty ≡ with_bound true self.old.dirty }
    {
        self.dirty = self.dirty.with_bound();
    }

    /// The dirty groups, of which then none is dirty.
    pub fn take_dirty(&mut self) -> Groups
        ensures taken { result ≡ self.old.dirty }
        ensures state { self.new.state ≡ self.old.state }
        ensures dirty { self.new.dirty ≡ no_groups }
    {
        let taken = self.dirty;
        self.dirty = Groups::none();
        taken
    }

    /// The register words of these groups, at most 19, with the texture that is bound where it is placed. Its sides are
    /// 1 to 256.
    pub fn emit_words(&self, groups: Groups, bound: Option<BoundTexture>) -> EmitWords
        requires { IsBoundInRange bound }
        ensures words { result ≡ emitted_words groups self.now.state bound }
        ensures most { length result ≤ 19 }
        ensures scissor { IsScissorInRange self.now.state.scissor }
    {
        emit(&self.state, groups, bound)
    }
}
