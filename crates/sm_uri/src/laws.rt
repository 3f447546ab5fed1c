// Laws of patterns: public functions with empty bodies, whose contracts are the laws.
ghost use Rattle.sm_uri.specs.UriPattern.{OneUri};
ghost use Rattle.sm_uri.specs.UriRoutes.{RoutesByTexts};

/// A text spells one pattern of URIs.
pub fn one_uri()
    ensures { OneUri }
{}

/// Two patterns of URIs are one route, equal but for the names of their labels, exactly where `route_text` answers one text for both.
pub fn routes_by_texts()
    ensures { RoutesByTexts }
{}
