// The layers that this crate knows. No other crate can name this trait, so none can add a layer.
pub trait Known {}
