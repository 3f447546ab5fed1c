// An operation as requests find it.
use sm_tree::Text;
use sm_uri::UriPattern;

/// An operation as requests find it.
#[derive(Debug, Drop)]
pub struct Route {
    /// Its method.
    pub method: Text,
    /// The pattern of its targets.
    pub uri: UriPattern,
    /// Its name, which decides between patterns that are alike.
    pub name: Text,
    /// Its number, which is answered.
    pub operation: u32,
}
